// One sample from the values of its taps. The sums are those of the values, also where one of them is the mark.
// InRange, HeldPair and c ≤ 16384 stay clauses (Kept): filter_rows and filter_limits say why.
// pair_sum takes a strength and its shift as two numbers (Kept): trial_sums calls it with strengths whose weights it does not use.
ghost use Rattle.std.specs.Prelude.{◌≡◌, ◌<◌, ◌≤◌};
ghost use Rattle.filter_limits.specs.Limits.{HeldPair};
ghost use Rattle.filter_rows.specs.Sums.{InRange};
ghost use Rattle.plane_taps.specs.Plain.{Low, Bounded, pair_plain, pri_plain, sec_plain, limit_two, first_of, last_of};

use filter_limits::{GREATEST, LEAST, Pair, further};
use filter_rows::Strength;

// The primary taps' sum, and the least and the greatest of them and the centre.
#[derive(Clone, Copy)]
pub struct Part {
    pub sum: i16,
    pub lo: u16,
    pub hi: u16,
}

// A tap and its opposite, constrained.
pub fn pair_sum(p: Pair, c: u16, s: u16, sh: u32) -> i16
    requires { HeldPair p × (c ≤ 16384) × (s ≤ 240) × (sh ≤ 15) }
    ensures { result ≡ pair_plain p c s sh }
{
    arith_sample::add(
        arith_sample::constrain_tap(p.on, c, s, sh),
        arith_sample::constrain_tap(p.back, c, s, sh),
    )
}

// The primary sum.
pub fn pri_sum(p0: Pair, p1: Pair, c: u16, f: Strength) -> i16
    requires { HeldPair p0 × HeldPair p1 × (c ≤ 16384) × InRange f }
    ensures { result ≡ pri_plain p0 p1 c f }
{
    filter_rows::both::weigh(pair_sum(p0, c, f.s, f.sh), pair_sum(p1, c, f.s, f.sh), f)
}

// The secondary sum.
pub fn sec_sum(q0: Pair, q1: Pair, r0: Pair, r1: Pair, c: u16, f: Strength) -> i16
    requires { HeldPair q0 × HeldPair q1 × HeldPair r0 × HeldPair r1 × (c ≤ 16384) × InRange f }
    ensures { result ≡ sec_plain q0 q1 r0 r1 c f }
{
    let a = arith_sample::add(pair_sum(q0, c, f.s, f.sh), pair_sum(r0, c, f.s, f.sh));
    let b = arith_sample::add(pair_sum(q1, c, f.s, f.sh), pair_sum(r1, c, f.s, f.sh));
    filter_rows::both::weigh(a, b, f)
}

// The least or the greatest of two pairs.
fn limit_two<const LIMIT: bool>(p: Pair, q: Pair) -> u16
    requires { Low p × Low q }
    ensures { (result ≡ limit_two LIMIT p q) × (result < 16384) }
{
    further::<LIMIT>(
        further::<LIMIT>(p.on, p.back),
        further::<LIMIT>(q.on, q.back),
    )
}

// The primary taps of a sample.
pub fn first(p0: Pair, p1: Pair, c: u16, f: Strength) -> Part
    requires { Low p0 × Low p1 × (c < 16384) × InRange f }
    ensures { result ≡ first_of p0 p1 c f }
{
    Part {
        sum: pri_sum(p0, p1, c, f),
        lo: limit_two::<LEAST>(p0, p1).min(c),
        hi: limit_two::<GREATEST>(p0, p1).max(c),
    }
}

// The sample, with its secondary taps.
pub fn last(m: Part, q0: Pair, q1: Pair, r0: Pair, r1: Pair, c: u16, g: Strength) -> u16
    requires { Bounded m × Low q0 × Low q1 × Low r0 × Low r1 × (c < 16384) × InRange g }
    ensures { result ≡ last_of m q0 q1 r0 r1 c g }
{
    let sum = arith_sample::add(m.sum, sec_sum(q0, q1, r0, r1, c, g));
    let lo = m
        .lo
        .min(limit_two::<LEAST>(q0, q1).min(limit_two::<LEAST>(r0, r1)));
    let hi = m.hi.max(limit_two::<GREATEST>(q0, q1).max(limit_two::<GREATEST>(r0, r1)));
    arith_sample::clipped(c, sum, lo, hi)
}
