// Sixteen samples of the twelve trial blocks, from their sums.
// Kept in each contract: list, trial block and entry, and the ranges, as in trial_runs. Strong is no ghost field of Twelve, nor InRange one of Strength:
// twelve_of, pri_of and sec_of make them of any numbers, and would take the proof of their ranges, in each statement that names them.
#![tactic(auto)]

ghost use Rattle.std.specs.Prelude.{◌≡◌, ◌+◌, ◌≤◌, length, IfSome};
ghost use Rattle.cdef_spec.specs.LoopForm.{put_block};
ghost use Rattle.arith_sample.specs.Bounds.{Held, Within};
ghost use Rattle.plane_taps.specs.Reach.{Around};
ghost use Rattle.filter_rows.specs.Sums.{InRange};
ghost use Rattle.trial_sums.specs.Raw.{SecKnown};
ghost use Rattle.trial_sixteen.specs.Sixteen.{taps_or, raw_tap, Strong, PriWithin, first_runs, four_runs};

use filter_rows::{Strength, Taps};
use trial_runs::Limits;
use trial_strengths::Twelve;

// The secondary sums with the taps of direction 0, or, without such taps, the block's own.
fn zero_sums(
    l: &[u16],
    at: usize,
    zero: Option<Taps>,
    own: [[i16; 16]; 2],
    f: Strength,
    g: Strength,
) -> [[i16; 16]; 2]
    requires { Held l.now × InRange f × InRange g × IfSome zero (λ o. Around (length l.now) at 16 o) }
    ensures { (o : Taps) → SecKnown l.now at o f.s f.sh g.s g.sh own → SecKnown l.now at (taps_or o zero) f.s f.sh g.s g.sh result }
{
    match zero {
        None => own,
        Some(zero) => trial_sums::sec_sums(l, at, zero, f, g),
    }
}

// The four trials without a secondary strength: the samples unfiltered, then by each of the three primary sums.
fn first_four(out: &mut [u16], k: usize, c: &[u16; 16], p: [[i16; 16]; 3])
    requires { (length out.old ≡ 768) × (k + 16 ≤ 64) × Held c.now × PriWithin p }
    ensures { out.new ≡ first_runs out.old c.now p k }
{
    trial_runs::put_run(out, 0, k, *c);
    trial_runs::put_free(out, 1, k, c, &p[0]);
    trial_runs::put_free(out, 2, k, c, &p[1]);
    trial_runs::put_free(out, 3, k, c, &p[2]);
}

// The four trials of a secondary strength, from trial t on: by its sum z alone, then by its sum s with each of the three primary ones.
fn four(
    out: &mut [u16],
    t: usize,
    k: usize,
    c: &[u16; 16],
    z: &[i16; 16],
    s: &[i16; 16],
    p: [[i16; 16]; 3],
    e: &Limits,
)
    requires runs_fit { (length out.old ≡ 768) × (t ≤ 8) × (k + 16 ≤ 64) }
    requires held { Held c.now × Within z.now 7680 × Within s.now 7680 × PriWithin p }
    ensures { out.new ≡ four_runs out.old c.now z.now s.now p e.now.lo e.now.hi t k }
{
    trial_runs::put_free(out, t, k, c, z);
    trial_runs::put_both(out, t + 1, k, c, &p[0], s, e);
    trial_runs::put_both(out, t + 2, k, c, &p[1], s, e);
    trial_runs::put_both(out, t + 3, k, c, &p[2], s, e);
}

// The sixteen entries from k on of all twelve trial blocks, from the samples of l, where entry 0 lies at index `from`.
// zero: the taps of direction 0; none where the block's own give the same secondary sums.
pub fn sixteen(
    out: &mut [u16],
    l: &[u16],
    from: usize,
    k: usize,
    own: Taps,
    zero: Option<Taps>,
    u: Twelve,
)
    requires run_fits { (length out.old ≡ 768) × (k + 16 ≤ 64) }
    requires samples { Held l.now × Strong u × Around (length l.now) (from + k) 16 own × IfSome zero (λ o. Around (length l.now) (from + k) 16 o) }
    ensures { out.new ≡ put_block out.old 64 (raw_tap l.now from own (taps_or own zero) u) 0 k 16 12 }
{
    let at = from + k;
    let c = trial_sums::centre(l, at);
    let p = trial_sums::pri_sums(l, at, own, u.p1, u.p2, u.p3);
    let s = trial_sums::sec_sums(l, at, own, u.s1, u.s2);
    let z = zero_sums(l, at, zero, s, u.s1, u.s2);
    let e = trial_sums::limits::limits_of(l, at, own);
    first_four(out, k, &c, p);
    four(out, 4, k, &c, &z[0], &s[0], p, &e);
    four(out, 8, k, &c, &z[1], &s[1], p, &e);
}
