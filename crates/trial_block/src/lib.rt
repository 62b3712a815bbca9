// The trial of a block: twelve trial blocks from its window, in strips where its samples fill runs of sixteen.
// Kept in each contract: the length of 768 as in block.rt, the ranges as in trial_sixteen.
#![tactic(auto)]

pub mod block; // block.rt: the trial of a block of a plane

ghost use Rattle.std.specs.Prelude.{◌≡◌, ℕ, ◌+◌, ◌*◌, ◌≤◌, ◌<◌, length, IfSome};
ghost use Rattle.cdef_spec.specs.LoopForm.{put_block};
ghost use Rattle.arith_sample.specs.Bounds.{Held, Marked};
ghost use Rattle.plane_taps.specs.Reach.{Around};
ghost use Rattle.trial_sixteen.specs.Sixteen.{taps_or, raw_tap, Strong};
ghost use Rattle.trial_marks.specs.Trial.{trial_tap, Tame};
ghost use Rattle.arith_numbers.specs.Packed.{Packed};

use filter_rows::Taps;
use trial_strengths::Twelve;

// The first n runs of sixteen entries of the twelve trial blocks.
// Kept by index: a turn takes sixteen entries of each of twelve blocks, which lie 64 apart, so that no chunk iterator yields them.
fn runs(out: &mut [u16], l: &[u16], from: usize, n: usize, own: Taps, zero: Option<Taps>, u: Twelve)
    requires room { (length out.old ≡ 768) × (n ≤ 4) }
    requires samples { Held l.now × Strong u }
    requires around { (i : ℕ) → i < n → Around (length l.now) (from + i * 16) 16 own × IfSome zero (λ o. Around (length l.now) (from + i * 16) 16 o) }
    ensures { out.new ≡ put_block out.old 64 (raw_tap l.now from own (taps_or own zero) u) 0 0 (n * 16) 12 }
{
    for i in 0..n {
        trial_sixteen::sixteen(out, l, from, i * 16, own, zero, u);
    }
}

// All twelve trial blocks of a block w by h, from its window. Marks count as the values that they are, which changes nothing with these strengths.
fn by_strips(out: &mut [u16], w: usize, h: usize, win: &[u16; 144], dir: usize, u: Twelve)
    requires { (length out.old ≡ 768) × Packed w h × Marked win.now × (dir < 8) × Strong u × Tame u dir }
    ensures { out.new ≡ put_block out.old 64 (trial_tap win.now u w) 0 0 (h * w) 12 }
{
    let n = h + 4;
    let l = trial_strips::strips(win, w, n);
    let p = n * w;
    let own = plane_taps::steps::taps(dir, w, p);
    let zero = if dir % 4 == 0 {
        None
    } else {
        Some(plane_taps::steps::taps(0, w, p))
    };
    runs(out, &l, 2 * p + 2 * w, w * h / 16, own, zero, u);
}
