// Blocks of a plane without marks: those two samples or more inside it are filtered straight from the plane, the others through their window.
// The parameters (dst, y0, src) stay apart, and BeginsIn, y0 ≤ b.y and Usable stay clauses (Kept): the head of filter_block says why; of AllLow and AllByte
// that of plane_rows.
#![tactic(auto)]

ghost use Rattle.std.specs.Prelude.{◌≡◌, ◌+◌, ◌-◌, ◌*◌, ◌≤◌, min, length};
ghost use Rattle.filter_window.specs.Spans.{BeginsIn};
ghost use Rattle.filter_block.specs.Store.{Usable};
ghost use Rattle.plane_taps.specs.Plain.{AllLow};
ghost use Rattle.plane_bytes.specs.Eights.{AllByte};
ghost use Rattle.plane_block.specs.Inside.{Sided, Inner, block_from, params_from, stored_block};

mod rows; // rows.rt: rows of eight samples

use cdef_spec::full::FullPlane;
use cdef_spec::{Block, FilterParams, WorkingDamping};

// Filters a block inside the plane into a destination whose first row is the plane's row y0. Kept one by one, its sides and parameters:
// as structs they went through memory once more, and a block of 4 by 4 took a quarter longer (applying chroma 1.28 times).
fn filter_inside(
    dst: &mut [u16],
    y0: usize,
    src: &FullPlane<'_>,
    x: usize,
    y: usize,
    bw: usize,
    bh: usize,
    pri: u32,
    sec: u32,
    dir: u8,
    damping: u8,
    depth: u8,
)
    requires begins { BeginsIn src.now (block_from x y bw bh) × AllLow src.now.samples.now × Usable (params_from pri sec dir damping depth)
        × (depth ≡ 8 → AllByte src.now.samples.now) }
    requires rows_fit { (y0 ≤ y) × ((y - y0 + bh) * src.now.width ≤ length dst.old) × Sided bw × Sided bh
        × Inner src.now.width src.now.height x y bw bh }
    ensures { dst.new ≡ stored_block dst.old src.now (params_from pri sec dir damping depth) y0 y x bw bh }
{
    let w = src.width;
    let d = filter_kernel::from_one(WorkingDamping(damping));
    let f = filter_kernel::primary(pri as u16, d, depth);
    let g = filter_kernel::secondary(sec as u16, d);
    let at = y * w + x;
    let to = (y - y0) * w + x;
    let dir = dir as usize;
    if bw == 8 {
        rows::eight_wide(dst, to, src.samples, w, at, bh, dir, depth, f, g);
        return;
    }
    plane_fours::rows(dst, to, src.samples, w, at, dir, f, g);
    if bh == 4 {
        return;
    }
    plane_fours::rows(dst, to + 4 * w, src.samples, w, at + 4 * w, dir, f, g);
}

// Filters a block of the plane src into a destination whose first row is the plane's row y0.
pub fn filter_block(dst: &mut [u16], y0: usize, src: &FullPlane<'_>, b: Block, q: FilterParams)
    requires begins { BeginsIn src.now b × AllLow src.now.samples.now × Usable q × (q.depth ≡ 8 → AllByte src.now.samples.now) }
    requires rows_fit { (y0 ≤ b.y) × ((b.y - y0 + min b.height (src.now.height - b.y)) * src.now.width ≤ length dst.old)
        × Sided b.width × Sided b.height }
    ensures { dst.new ≡ stored_block dst.old src.now q y0 b.y b.x (min b.width (src.now.width - b.x)) (min b.height (src.now.height - b.y)) }
{
    if plane_inside::inside(src.width, src.height, b.x, b.y, b.width, b.height) {
        filter_inside(
            dst,
            y0,
            src,
            b.x,
            b.y,
            b.width,
            b.height,
            q.pri,
            q.sec,
            q.dir,
            q.damping.0,
            q.depth,
        );
        return;
    }
    filter_block::cdef_filter_block(dst, y0, src, b, q);
}
