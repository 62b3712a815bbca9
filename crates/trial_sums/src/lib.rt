// Sums of sixteen samples that lie one after the other in a list, as their taps do; marks count as the values that they are.
// Kept with list, first index and taps as three parameters, and what is asked of them in each contract: by a struct of the three
// the luma trial measured 1.04 times the time.
#![tactic(auto)]

ghost use Rattle.std.specs.Prelude.{◌≡◌, ◌+◌, ◌≤◌, ◌<◌, get_or, length};
ghost use Rattle.arith_sample.specs.Bounds.{Held};
ghost use Rattle.arith_sample.specs.Upto.{upto};
ghost use Rattle.filter_limits.specs.Limits.{HeldPair};
ghost use Rattle.filter_rows.specs.Sums.{InRange};
ghost use Rattle.plane_taps.specs.Reach.{Around};
ghost use Rattle.trial_sums.specs.Raw.{side_of, pri_raw, PriKnown, NearKnown, SecKnown};

use filter_limits::Pair;
use filter_rows::{Strength, Taps};
use plane_taps::{load, plain};
use std::array;

pub mod limits; // limits.rt: the least and the greatest of each sample and its taps

// The sixteen from `at` on.
pub fn centre(t: &[u16], at: usize) -> [u16; 16]
    requires { at + 16 ≤ length t.now }
    ensures { result ≡ upto (λ j. get_or t.now (at + j) 0) 16 }
{
    array::from_fn(|j| t[at + j])
}

// The primary sum of the sample at + j.
fn pri_at(t: &[u16], at: usize, j: usize, o: Taps, f: Strength) -> i16
    requires { Around (length t.now) at 16 o × Held t.now × InRange f × (j < 16) }
    ensures { result ≡ pri_raw t.now (at + j) o f }
{
    let k = at + j;
    plain::pri_sum(load::load(t, k, o.p0), load::load(t, k, o.p1), t[k], f)
}

// The primary sums of one strength.
fn pri_one(t: &[u16], at: usize, o: Taps, f: Strength) -> [i16; 16]
    requires { Around (length t.now) at 16 o × Held t.now × InRange f }
    ensures { result ≡ upto (λ j. pri_raw t.now (at + j) o f) 16 }
{
    array::from_fn(|j| pri_at(t, at, j, o, f))
}

// The sums of three primary strengths. A strength of 0 has none, and equal strengths share theirs.
pub fn pri_sums(
    t: &[u16],
    at: usize,
    o: Taps,
    f: Strength,
    g: Strength,
    h: Strength,
) -> [[i16; 16]; 3]
    requires { Around (length t.now) at 16 o × Held t.now × InRange f × InRange g × InRange h × (g.s ≡ h.s → g ≡ h) }
    ensures { PriKnown t.now at o f g h result }
{
    let first = if f.s == 0 {
        [0i16; 16]
    } else {
        pri_one(t, at, o, f)
    };
    let second = pri_one(t, at, o, g);
    let third = if g.s == h.s {
        second
    } else {
        pri_one(t, at, o, h)
    };
    [first, second, third]
}

// The taps of the two side directions at one distance.
// Kept by strength and shift, not by a Strength: its weights are not used, and no contract here asks anything of them.
fn side(q: Pair, r: Pair, c: u16, s: u16, sh: u32) -> i16
    requires { HeldPair q × HeldPair r × (c ≤ 16384) × (s ≤ 240) × (sh ≤ 15) }
    ensures { result ≡ side_of q r c s sh }
{
    arith_sample::add(plain::pair_sum(q, c, s, sh), plain::pair_sum(r, c, s, sh))
}

// The secondary sums of the near taps, weighed by 2. Both strengths in one loop, and the far taps in another function:
// one function for the near and the far taps, weighed and added after, is 9 % slower in the whole trial.
// Kept as a loop that writes both arrays: by array::from_fn the luma trial measured 1.11 times the time for one strength after the other,
// 1.67 for pairs of sums.
fn near_sums(t: &[u16], at: usize, o: Taps, f: Strength, g: Strength) -> [[i16; 16]; 2]
    requires { Around (length t.now) at 16 o × Held t.now × (f.s ≤ 240) × (f.sh ≤ 15) × (g.s ≤ 240) × (g.sh ≤ 15) }
    ensures { NearKnown t.now at o f.s f.sh g.s g.sh result }
{
    let mut s1 = [0i16; 16];
    let mut s2 = [0i16; 16];
    for (j, c) in t[at..at + 16].iter().enumerate() {
        let k = at + j;
        let a = load::load(t, k, o.q0);
        let b = load::load(t, k, o.r0);
        s1[j] = arith_sample::scale(2, side(a, b, *c, f.s, f.sh));
        s2[j] = arith_sample::scale(2, side(a, b, *c, g.s, g.sh));
    }
    [s1, s2]
}

// The secondary sums of two strengths: the near taps, and the far ones, weighed by 1.
// Kept as a loop, as near_sums is.
pub fn sec_sums(t: &[u16], at: usize, o: Taps, f: Strength, g: Strength) -> [[i16; 16]; 2]
    requires { Around (length t.now) at 16 o × Held t.now × (f.s ≤ 240) × (f.sh ≤ 15) × (g.s ≤ 240) × (g.sh ≤ 15) }
    ensures { SecKnown t.now at o f.s f.sh g.s g.sh result }
{
    let near = near_sums(t, at, o, f, g);
    let mut s1 = [0i16; 16];
    let mut s2 = [0i16; 16];
    for (j, c) in t[at..at + 16].iter().enumerate() {
        let k = at + j;
        let a = load::load(t, k, o.q1);
        let b = load::load(t, k, o.r1);
        s1[j] = arith_sample::add(near[0][j], side(a, b, *c, f.s, f.sh));
        s2[j] = arith_sample::add(near[1][j], side(a, b, *c, g.s, g.sh));
    }
    [s1, s2]
}
