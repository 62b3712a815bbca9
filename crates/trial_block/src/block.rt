// The trial of a block of a plane.
// Kept in each contract: the length of 768. The call for C lends a slice, whose length question 7 asks in check_block; made an array there by `try_into`, it would have
// to be lent on beside the plane in what trial_no returns.
ghost use Rattle.std.specs.Prelude.{◌≡◌, ◌≤◌, ◌<◌, length};
ghost use Rattle.cdef_spec.specs.Words.{table};
ghost use Rattle.cdef_spec.specs.Lent.{plane_in_full};
ghost use Rattle.cdef_spec.specs.Document01.{Plane};
ghost use Rattle.cdef_spec.specs.BlockCalls.{trial_place};
ghost use Rattle.arith_sample.specs.Bounds.{Marked};
ghost use Rattle.arith_sample.specs.Upto.{upto};
ghost use Rattle.filter_window.specs.Window.{window_at};
ghost use Rattle.filter_window.specs.Spans.{InPlane};

use cdef_spec::Block;
use cdef_spec::full::FullPlane;
use trial_strengths::TrialParams;

// Twelve trial blocks from a block's window. A block of other sides, or with a damping at which a mark's difference may count, is filtered trial by trial.
pub fn trial_window(out: &mut [u16], win: &[u16; 144], b: Block, q: TrialParams)
    requires { (length out.old ≡ 768) × (b.width ≤ 8) × (b.height ≤ 8) × Marked win.now }
    ensures { (p : Plane) → win.now ≡ upto (window_at p b) 144
        → out.new ≡ table 768 (trial_place p b q.way q.dir q.damping q.depth out.old) }
{
    let u = trial_strengths::strengths(q);
    if q.damping.0 <= 12 && arith_numbers::packs(b.width, b.height) {
        crate::by_strips(out, b.width, b.height, win, q.dir as usize, u);
        return;
    }
    trial_any::trials(out, b.width, b.height, win, u);
}

// Twelve trial blocks of 64 entries of a block of a plane.
pub fn cdef_block_candidates(out: &mut [u16], src: &FullPlane<'_>, b: Block, q: TrialParams)
    requires { InPlane src.now.samples.now src.now.width src.now.height b × Marked (upto (window_at (plane_in_full src.now) b) 144)
        × (length out.old ≡ 768) }
    ensures { out.new ≡ table 768 (trial_place (plane_in_full src.now) b q.way q.dir q.damping q.depth out.old) }
{
    let win = filter_window::window(src, b);
    trial_window(out, &win, b, q);
}
