// The block filter: a block of a plane filtered into rows of a destination.
// Window, taps and strengths stay apart, and Held, Near6, InRange and BeginsIn stay clauses (Kept): filter_rows and filter_window say why.
// Usable is Kept as a clause: FilterParams is the struct that the public calls take with any numbers in it, so it cannot carry the fact.
// (dst, y0) are Kept apart: the C interface takes them so, as a list and the number of its first row.
#![tactic(auto)]

ghost use Rattle.std.specs.Prelude.{◌≡◌, ◌+◌, ◌-◌, ◌*◌, ◌≤◌, ◌<◌, min, length};
ghost use Rattle.cdef_spec.specs.Document01.{filtered};
ghost use Rattle.cdef_spec.specs.LoopForm.{put_block};
ghost use Rattle.arith_sample.specs.Bounds.{Held};
ghost use Rattle.arith_sample.specs.Upto.{upto};
ghost use Rattle.filter_rows.specs.Sums.{Near6, InRange};
ghost use Rattle.cdef_spec.specs.Lent.{plane_in_full};
ghost use Rattle.filter_window.specs.Window.{window_at};
ghost use Rattle.filter_window.specs.Spans.{BeginsIn};
ghost use Rattle.filter_block.specs.Store.{window_tap, block_tap, Usable};

use cdef_spec::full::FullPlane;
use cdef_spec::{Block, FilterParams};
use filter_rows::{Strength, Taps};

// Filters the rows of a window, cols samples of each, into a destination w wide, from its row y and column x on.
// It is the one caller of kernel_row, which the compiler inlines here.
// Kept by index: i is the row of the window, which kernel_row reads two rows above and below, and the row of dst; store_row stores at it.
pub fn filter_rows(
    dst: &mut [u16],
    w: usize,
    y: usize,
    x: usize,
    rows: usize,
    cols: usize,
    win: &[u16; 144],
    t: Taps,
    f: Strength,
    g: Strength,
)
    requires rows_fit { (x + cols ≤ w) × (w ≤ 4096) × (y + rows ≤ 8192) × (rows ≤ 8) × (cols ≤ 8) × ((y + rows) * w ≤ length dst.old) }
    requires held { Held win.now × Near6 t × InRange f × InRange g }
    ensures { dst.new ≡ put_block dst.old w (window_tap win.now t f g y x) y x cols rows }
{
    for i in 0..rows {
        let row = filter_kernel::kernel_row(win, (i + 2) * 12 + 2, t, f, g);
        filter_store::store_row(dst, w, y + i, x, cols, row);
    }
}

// Filters a block from its window, in a plane w by h, into a destination whose first row is the plane's row y0.
pub fn filter_window(
    dst: &mut [u16],
    y0: usize,
    win: &[u16; 144],
    w: usize,
    h: usize,
    b: Block,
    q: FilterParams,
)
    requires begins { (b.x < w) × (b.y < h) × (w ≤ 4096) × (h ≤ 4096) × (b.width ≤ 8) × (b.height ≤ 8) }
    requires rows_fit { (y0 ≤ b.y) × ((b.y - y0 + min b.height (h - b.y)) * w ≤ length dst.old) }
    requires held { Held win.now × Usable q }
    ensures { dst.new ≡ put_block dst.old w (block_tap win.now q (b.y - y0) b.x) (b.y - y0) b.x
        (min b.width (w - b.x)) (min b.height (h - b.y)) }
{
    let d = filter_kernel::from_one(q.damping);
    let t = filter_kernel::taps(q.dir as usize);
    let f = filter_kernel::primary(q.pri as u16, d, q.depth);
    let g = filter_kernel::secondary(q.sec as u16, d);
    let cols = b.width.min(w - b.x);
    let rows = b.height.min(h - b.y);
    filter_rows(dst, w, b.y - y0, b.x, rows, cols, win, t, f, g);
}

// Filters a block of the plane src into a destination whose first row is the plane's row y0.
pub fn cdef_filter_block(dst: &mut [u16], y0: usize, src: &FullPlane<'_>, b: Block, q: FilterParams)
    requires begins { BeginsIn src.now b × Held (upto (window_at (plane_in_full src.now) b) 144) × Usable q }
    requires rows_fit { (y0 ≤ b.y) × ((b.y - y0 + min b.height (src.now.height - b.y)) * src.now.width ≤ length dst.old) }
    ensures { dst.new ≡ put_block dst.old src.now.width (λ r c. filtered (plane_in_full src.now) q (y0 + r) c) (b.y - y0)
        b.x (min b.width (src.now.width - b.x)) (min b.height (src.now.height - b.y)) }
{
    let win = filter_window::window(src, b);
    filter_window(dst, y0, &win, src.width, src.height, b, q);
}
