// The call for the block filter; bare numbers become a block and parameters here alone.
// Kept as parameters: C passes numbers and lists one by one.
ghost use Rattle.std.specs.Prelude.{◌≡◌};
ghost use Rattle.cdef_spec.specs.Answers.{number_of};
ghost use Rattle.cdef_spec.specs.BlockCalls.{filter_outcome};

use crate::answer;
use cdef_spec::{Block, FilterParams, Plane, WorkingDamping};

// Filters the block at (x, y), bw by bh, of a plane into a destination of whole rows, whose first is the plane's row y0.
#[unsafe(no_mangle)]
pub extern "C" fn quern_filter_block(
    dst: &mut [u16],
    y0: usize,
    plane: &[u16],
    width: usize,
    height: usize,
    x: usize,
    y: usize,
    bw: usize,
    bh: usize,
    pri: u32,
    sec: u32,
    dir: u8,
    damping: u8,
    depth: u8,
) -> u32
    ensures code { result ≡ number_of (filter_outcome (record { samples = plane.now; width = width; height = height })
        (record { x = x; y = y; width = bw; height = bh })
        (record { pri = pri; sec = sec; dir = dir; damping = record { 0 = damping }; depth = depth }) y0 dst.old).answer }
    ensures dst_after { dst.new ≡ (filter_outcome (record { samples = plane.now; width = width; height = height })
        (record { x = x; y = y; width = bw; height = bh })
        (record { pri = pri; sec = sec; dir = dir; damping = record { 0 = damping }; depth = depth }) y0 dst.old).dst }
{
    let plane = Plane {
        samples: plane,
        width,
        height,
    };
    let block = Block {
        x,
        y,
        width: bw,
        height: bh,
    };
    let params = FilterParams {
        pri,
        sec,
        dir,
        damping: WorkingDamping(damping),
        depth,
    };
    answer::number(cdef_blocks::filter::filter_block(dst, y0, &plane, block, params))
}
