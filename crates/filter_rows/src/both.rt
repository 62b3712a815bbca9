// The taps of a sample as the window holds them, their sums, and the sample filtered with both strengths. Each of its taps is loaded once.
// The clauses and the parameters stay as in lib.rt (Kept), whose head says why.
// pair_sum, pri_sum and sec_sum are Kept beside those of plane_taps::plain, which make no test for the mark: as one function with a const parameter each of
// the three, and each of their definitions, would take it as well.
ghost use Rattle.std.specs.Prelude.{◌≡◌, ◌≤◌, unsigned_abs};
ghost use Rattle.arith_sample.specs.Bounds.{Held};
ghost use Rattle.filter_rows.specs.Place.{Near};
ghost use Rattle.filter_rows.specs.Sums.{Near6, InRange, filtered_at};
ghost use Rattle.filter_rows.specs.Pairs.{pair_of, pairs_of, con_tap, pair_sum, weighed, pri_sum, sec_sum};
ghost use Rattle.filter_limits.specs.Limits.{HeldPair, HeldPairs};

use crate::{Strength, Taps};
use filter_limits::{Pair, Pairs};

// The tap at an offset from k, and the opposite one.
// Kept beside plane_taps::load::load, which has the same body in a crate above: it asks Reached of its index, this one Near of the offset.
fn load_pair(w: &[u16; 144], k: usize, o: usize) -> Pair
    requires { (26 ≤ k) × (k ≤ 117) × Near o }
    ensures { result ≡ pair_of w.now k o }
{
    Pair {
        on: w[k.wrapping_add(o)],
        back: w[k.wrapping_sub(o)],
    }
}

// The taps of the sample at k.
pub fn load_pairs(w: &[u16; 144], k: usize, t: Taps) -> Pairs
    requires { (26 ≤ k) × (k ≤ 117) × Near6 t }
    ensures { result ≡ pairs_of w.now k t }
{
    Pairs {
        p0: load_pair(w, k, t.p0),
        p1: load_pair(w, k, t.p1),
        q0: load_pair(w, k, t.q0),
        q1: load_pair(w, k, t.q1),
        r0: load_pair(w, k, t.r0),
        r1: load_pair(w, k, t.r1),
    }
}

// A tap's constrained difference from the centre; 0 where the tap is marked.
fn constrain(t: u16, c: u16, s: u16, sh: u32) -> i16
    requires { (t ≤ 16384) × (c ≤ 16384) × (s ≤ 240) × (sh ≤ 15) }
    ensures { result ≡ con_tap t c s sh }
{
    let d = arith_sample::constrain_tap(t, c, s, sh);
    if t == arith_sample::MARK { 0 } else { d }
}

// A tap and its opposite, constrained; a marked one counts 0.
fn pair_sum(p: Pair, c: u16, f: Strength) -> i16
    requires { HeldPair p × (c ≤ 16384) × InRange f }
    ensures { result ≡ pair_sum p c f.s f.sh }
{
    arith_sample::add(
        constrain(p.on, c, f.s, f.sh),
        constrain(p.back, c, f.s, f.sh),
    )
}

// The near and the far taps' sums by their weights.
pub fn weigh(a: i16, b: i16, f: Strength) -> i16
    requires { (unsigned_abs a ≤ 960) × (unsigned_abs b ≤ 960) × InRange f }
    ensures { result ≡ weighed a b f }
{
    arith_sample::add(arith_sample::scale(f.w0, a), arith_sample::scale(f.w1, b))
}

// The primary taps' sum.
pub fn pri_sum(e: Pairs, c: u16, f: Strength) -> i16
    requires { HeldPairs e × (c ≤ 16384) × InRange f }
    ensures { result ≡ pri_sum e c f }
{
    weigh(pair_sum(e.p0, c, f), pair_sum(e.p1, c, f), f)
}

// The secondary taps' sum.
pub fn sec_sum(e: Pairs, c: u16, f: Strength) -> i16
    requires { HeldPairs e × (c ≤ 16384) × InRange f }
    ensures { result ≡ sec_sum e c f }
{
    let a = arith_sample::add(pair_sum(e.q0, c, f), pair_sum(e.r0, c, f));
    let b = arith_sample::add(pair_sum(e.q1, c, f), pair_sum(e.r1, c, f));
    weigh(a, b, f)
}

// The filtered sample at k. It has one caller, a loop, so that the compiler inlines it there.
pub fn both_at(w: &[u16; 144], k: usize, t: Taps, f: Strength, g: Strength) -> u16
    requires { (26 ≤ k) × (k ≤ 117) × Held w.now × Near6 t × InRange f × InRange g }
    ensures { result ≡ filtered_at w.now k t f g }
{
    let c = w[k];
    let e = load_pairs(w, k, t);
    let sum = arith_sample::add(pri_sum(e, c, f), sec_sum(e, c, g));
    arith_sample::finish(
        c,
        sum,
        filter_limits::lowest(e, c),
        filter_limits::highest(e, c),
    )
}
