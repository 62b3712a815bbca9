// The calls for the trial of a block, one for luma and one for chroma; bare numbers become a block and a damping here alone.
// Kept as parameters: C passes numbers and lists one by one. Kept as two functions, luma and chroma: `include/cdef.h` has an entry each, the one with a variance, the other without.
ghost use Rattle.std.specs.Prelude.{◌≡◌};
ghost use Rattle.cdef_spec.specs.declared.TrialWay.TheVariants.{Luma, Chroma};
ghost use Rattle.cdef_spec.specs.Answers.{number_of};
ghost use Rattle.cdef_spec.specs.BlockCalls.{trial_outcome};

use crate::answer;
use cdef_spec::{Block, Plane, TrialWay, WorkingDamping};

// Twelve trial blocks of the block at (x, y), bw by bh, of a luma plane, with its variance.
#[unsafe(no_mangle)]
pub extern "C" fn quern_trial_luma(
    out: &mut [u16],
    plane: &[u16],
    width: usize,
    height: usize,
    x: usize,
    y: usize,
    bw: usize,
    bh: usize,
    variance: u32,
    dir: u8,
    damping: u8,
    depth: u8,
) -> u32
    ensures code { result ≡ number_of (trial_outcome (record { samples = plane.now; width = width; height = height })
        (record { x = x; y = y; width = bw; height = bh }) (Luma variance) dir (record { 0 = damping }) depth out.old).answer }
    ensures out_after { out.new ≡ (trial_outcome (record { samples = plane.now; width = width; height = height })
        (record { x = x; y = y; width = bw; height = bh }) (Luma variance) dir (record { 0 = damping }) depth out.old).out }
{
    let plane = Plane {
        samples: plane,
        width,
        height,
    };
    let block = Block {
        x,
        y,
        width: bw,
        height: bh,
    };
    let way = TrialWay::Luma(variance);
    let damping = WorkingDamping(damping);
    answer::number(cdef_blocks::trial::trial(out, &plane, block, way, dir, damping, depth))
}

// Twelve trial blocks of the block at (x, y), bw by bh, of a chroma plane.
#[unsafe(no_mangle)]
pub extern "C" fn quern_trial_chroma(
    out: &mut [u16],
    plane: &[u16],
    width: usize,
    height: usize,
    x: usize,
    y: usize,
    bw: usize,
    bh: usize,
    dir: u8,
    damping: u8,
    depth: u8,
) -> u32
    ensures code { result ≡ number_of (trial_outcome (record { samples = plane.now; width = width; height = height })
        (record { x = x; y = y; width = bw; height = bh }) Chroma dir (record { 0 = damping }) depth out.old).answer }
    ensures out_after { out.new ≡ (trial_outcome (record { samples = plane.now; width = width; height = height })
        (record { x = x; y = y; width = bw; height = bh }) Chroma dir (record { 0 = damping }) depth out.old).out }
{
    let plane = Plane {
        samples: plane,
        width,
        height,
    };
    let block = Block {
        x,
        y,
        width: bw,
        height: bh,
    };
    let way = TrialWay::Chroma;
    let damping = WorkingDamping(damping);
    answer::number(cdef_blocks::trial::trial(out, &plane, block, way, dir, damping, depth))
}
