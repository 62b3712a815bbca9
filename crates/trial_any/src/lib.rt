// The trial of a block of any sides and any damping: one trial after the other, by the rows of the block filter.
// Kept in each contract: sides, window, taps and strengths. Handed Twelve, `trial` would choose taps and strengths by two numbers, as the loops of `trials` have just done.
#![tactic(auto)]

ghost use Rattle.std.specs.Prelude.{◌≡◌, ◌+◌, ◌*◌, ◌/◌, ◌%◌, ◌≤◌, ◌<◌, length};
ghost use Rattle.cdef_spec.specs.LoopForm.{put_row, put_block};
ghost use Rattle.arith_sample.specs.Bounds.{Held};
ghost use Rattle.filter_rows.specs.Sums.{Near6, InRange};
ghost use Rattle.trial_runs.specs.Runs.{run_tap};
ghost use Rattle.trial_strengths.specs.Strengths.{Ready};
ghost use Rattle.trial_any.specs.Any.{taps_by, kernel_tap, any_tap};

use filter_rows::{Strength, Taps};
use trial_strengths::Twelve;

// The strength 0.
const NONE: Strength = Strength {
    s: 0,
    sh: 0,
    w0: 0,
    w1: 0,
};

// The taps of primary i: of direction 0 where it is 0.
#[tactic(auto, unfolding(crate::specs::Any::taps_by))]
fn taps_of(u: Twelve, i: usize) -> Taps
    ensures { result ≡ taps_by u i }
{
    if i == 0 { u.zero } else { u.own }
}

// The first entries of trial block t.
// Kept beside trial_runs::put_run: the count here, h * w, is known only when it runs; that one's sixteen are a literal, so that a run is stored whole.
fn put_block(out: &mut [u16], t: usize, v: &[u16])
    requires { (length out.old ≡ 768) × (t < 12) × (length v.now ≤ 64) }
    ensures { out.new ≡ put_row out.old 64 (run_tap v.now 0) t 0 (length v.now) }
{
    let at = t * 64;
    out[at..at + v.len()].copy_from_slice(v);
}

// Trial block t of a block w by h, from its window, by the taps and strengths of trial t: the block filter's rows, stored in a room of marks,
// so that a marked centre comes out as the mark.
fn trial(
    out: &mut [u16],
    t: usize,
    w: usize,
    h: usize,
    win: &[u16; 144],
    o: Taps,
    f: Strength,
    g: Strength,
)
    requires { (length out.old ≡ 768) × (t < 12) × (w ≤ 8) × (h ≤ 8) × Held win.now × Near6 o × InRange f × InRange g }
    ensures { out.new ≡ put_row out.old 64 (kernel_tap win.now o f g w) t 0 (h * w) }
{
    let mut room = [arith_sample::MARK; 64];
    filter_block::filter_rows(&mut room, w, 0, 0, h, w, win, o, f, g);
    put_block(out, t, &room[..h * w]);
}

// All twelve trial blocks: each secondary strength with each primary one.
pub fn trials(out: &mut [u16], w: usize, h: usize, win: &[u16; 144], u: Twelve)
    requires { (length out.old ≡ 768) × (w ≤ 8) × (h ≤ 8) × Held win.now × Ready u }
    ensures { out.new ≡ put_block out.old 64 (any_tap win.now u w) 0 0 (h * w) 12 }
{
    for (j, g) in [NONE, u.s1, u.s2].iter().enumerate() {
        for (i, f) in [NONE, u.p1, u.p2, u.p3].iter().enumerate() {
            trial(out, j * 4 + i, w, h, win, taps_of(u, i), *f, *g);
        }
    }
}
