// The 12 by 12 samples around a block: those examined, and 16384 elsewhere.
// Kept as a clause, BeginsIn: it joins a block and a plane, of which each stands without the other in every call above.
#![tactic(auto)]

ghost use Rattle.std.specs.Prelude.{◌≡◌, true, ◌+◌, ◌*◌, ◌≤◌, ◌<◌};
ghost use Rattle.arith_sample.specs.Upto.{upto};
ghost use Rattle.cdef_spec.specs.Lent.{plane_in_full};
ghost use Rattle.filter_window.specs.Window.{window_at};
ghost use Rattle.filter_window.specs.Spans.{SpanOf, BeginsIn, Inside};

use cdef_spec::Block;
use cdef_spec::full::FullPlane;

// The window's rows or columns that are examined: from lo on, below hi.
// Kept beside std's Range<usize>: of `cols` the ends alone are used, as parts of an index, so that cols.start and cols.end would read as lo and hi do here.
#[derive(Clone, Copy)]
pub struct Span {
    pub lo: usize,
    pub hi: usize,
}

// Of a block at `at` with a side of n, in a plane with a side of m.
fn looked_at(at: usize, n: usize, m: usize) -> Span
    requires { (at < m) × (m ≤ 4096) × (n ≤ 8) }
    ensures { SpanOf at n m result }
{
    Span {
        lo: 2usize.saturating_sub(at),
        hi: (n + 4).min(m + 2 - at),
    }
}

// The window of any block: in each row that is examined, the columns that are.
// Kept by index: of `out.chunks_exact_mut(12)` the check knows afterwards the length and no entry, so what the window holds stays open.
fn window_part(src: &FullPlane<'_>, b: Block) -> [u16; 144]
    requires { BeginsIn src.now b }
    ensures { result ≡ upto (window_at (plane_in_full src.now) b) 144 }
{
    let rows = looked_at(b.y, b.height, src.height);
    let cols = looked_at(b.x, b.width, src.width);
    let mut out = [arith_sample::MARK; 144];
    for i in rows.lo..rows.hi {
        let to = i * 12;
        let from = (b.y + i - 2) * src.width + (b.x + cols.lo - 2);
        out[to + cols.lo..to + cols.hi].copy_from_slice(
            &src.samples[from..from + (cols.hi - cols.lo)],
        );
    }
    out
}

// The window of a block inside the plane: the rows that are examined, eight samples of each, and four more of a block eight wide.
// Kept by index, as in window_part. Kept beside it: with window_part alone the filter of a block took 1.04 to 1.14 times as long, the chroma trial 1.04 times.
fn window_inside(src: &FullPlane<'_>, b: Block) -> [u16; 144]
    requires { BeginsIn src.now b × Inside src.now.width src.now.height b }
    ensures { result ≡ upto (window_at (plane_in_full src.now) b) 144 }
{
    let mut out = [arith_sample::MARK; 144];
    for i in 0..b.height + 4 {
        let to = i * 12;
        let from = (b.y + i - 2) * src.width + (b.x - 2);
        out[to..to + 8].copy_from_slice(&src.samples[from..from + 8]);
        if b.width == 8 {
            out[to + 8..to + 12].copy_from_slice(&src.samples[from + 8..from + 12]);
        }
    }
    out
}

// Whether a block is four or eight wide and lies two samples or more inside the plane.
fn lies_inside(w: usize, h: usize, b: Block) -> bool
    requires { (b.x ≤ 4096) × (b.y ≤ 4096) × (b.width ≤ 8) × (b.height ≤ 8) }
    ensures { result ≡ true → Inside w h b }
{
    b.width % 4 == 0 && b.width != 0 && plane_inside::inside(w, h, b.x, b.y, b.width, b.height)
}

// The window of a block of a plane.
pub fn window(src: &FullPlane<'_>, b: Block) -> [u16; 144]
    requires { BeginsIn src.now b }
    ensures { result ≡ upto (window_at (plane_in_full src.now) b) 144 }
{
    if lies_inside(src.width, src.height, b) {
        return window_inside(src, b);
    }
    window_part(src, b)
}
