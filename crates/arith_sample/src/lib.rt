// One sample of the filter: its taps unsigned, their sums 16-bit signed numbers.
// Kept as numbers with their bounds in each contract: taps, strengths and sums come from arrays of plain numbers, and a struct of one number would be built of each entry
// and taken apart at each of these calls.
#![tactic(auto)]

ghost use Rattle.std.specs.Prelude.{◌≡◌, ℕ, ◌+◌, ◌-◌, ◌*◌, ◌≤◌, ◌<◌, nat_abs, pos, ◌+ℤ◌, ◌-ℤ◌, ◌*ℤ◌};
ghost use Rattle.std.specs.Int.Signed.{mag};
ghost use Rattle.arith_sample.specs.Sample.{con_of, held_of, moved_of, over_of, under_of, finish_of, free_of};

// The mark, in place of a sample that is not there (RULES, Glossary). It must exceed every sample (they are below 2^12), so that a marked tap is never the least one,
// and stay so far below 2^15 that a centre plus its rounded sum, at most 1,000 in size, fits an i16.
// Kept as a number in place of an Option: a tap is then 16 bits in an array, and a caller's samples may hold the mark too (question 9).
pub const MARK: u16 = 16384;

// A number held to -l..l.
// Kept beside `clamp`: that tests whether its bounds cross, which here they never do. With it trying luma took 1.09 times the time, applying luma at 10 bits 1.18 times.
fn held(d: i16, l: u16) -> i16
    requires { (nat_abs d ≤ 32767) × (l ≤ 32767) }
    ensures { result ≡ held_of d l }
{
    let low = -(l as i16);
    low.max(d.min(l as i16))
}

// A tap's constrained difference from the centre: the difference held to what its size leaves of the strength.
// Kept beside arith_strength::constrain_mag, of 32-bit numbers, which derives its shift from a damping at each call, and plane_byte::above, of bytes and of one sign only:
// a generic function would take the shift, the width's difference and its sign as arguments, and each of the three would be a call of it with three closures.
pub fn constrain_tap(p: u16, c: u16, s: u16, sh: u32) -> i16
    requires { (p ≤ 32767) × (c ≤ 32767) × (s ≤ 32767) × (sh ≤ 15) }
    ensures { result ≡ con_of p c s sh }
{
    let d = (p as i16) - (c as i16);
    let used = d.unsigned_abs() >> sh;
    held(d, s.saturating_sub(used))
}

// The sum of two 16-bit numbers. A function, as `scale` is: its contract says of whole numbers what `+` says of machine words, so that callers need not.
pub fn add(a: i16, b: i16) -> i16
    requires { nat_abs a + nat_abs b ≤ 32767 }
    ensures { result ≡ a +ℤ b }
{
    a + b
}

// A 16-bit number times its weight.
pub fn scale(k: u16, a: i16) -> i16
    requires { (k ≤ 32767) × (nat_abs a ≤ 32767) × (k * nat_abs a ≤ 32767) }
    ensures { result ≡ pos k *ℤ a }
{
    (k as i16) * a
}

// The centre plus the rounded sum: the sum divided by 16 and rounded to the nearest, halves away from 0.
pub fn moved(c: u16, sum: i16) -> i16
    requires { (c ≤ 16384) × (nat_abs sum ≤ 16000) }
    ensures { result ≡ moved_of c sum }
{
    let g = if sum < 0 { 7i16 } else { 8i16 };
    (c as i16) + ((sum + g) >> 4)
}

// The centre plus the rounded sum, clipped.
pub fn clipped(c: u16, sum: i16, lo: u16, hi: u16) -> u16
    requires { (c ≤ 16384) × (nat_abs sum ≤ 16000) × (lo ≤ 16384) × (hi ≤ 16384) }
    ensures { result ≡ mag (under_of (over_of (moved_of c sum) lo) hi) }
{
    (lo as i16).max(moved(c, sum)).min(hi as i16) as u16
}

// The centre plus the rounded sum, at least 0.
pub fn raised(c: u16, sum: i16) -> u16
    requires { (c ≤ 16384) × (nat_abs sum ≤ 16000) }
    ensures { result ≡ mag (over_of (moved_of c sum) 0) }
{
    0i16.max(moved(c, sum)) as u16
}

// The filtered sample; a marked centre is kept.
pub fn finish(c: u16, sum: i16, lo: u16, hi: u16) -> u16
    requires { (c ≤ 16384) × (nat_abs sum ≤ 16000) × (lo ≤ 16384) × (hi ≤ 16384) }
    ensures { result ≡ finish_of c sum lo hi }
{
    let v = clipped(c, sum, lo, hi);
    if c == MARK { c } else { v }
}

// The centre plus its rounded sum, not clipped to the taps; a marked centre is kept.
// Kept beside `finish`, which clips: with the clipping as an argument, each call would name one of two functions that it now calls.
pub fn free(c: u16, sum: i16) -> u16
    requires { (c ≤ 16384) × (nat_abs sum ≤ 16000) }
    ensures { result ≡ free_of c sum }
{
    let v = raised(c, sum);
    if c == MARK { c } else { v }
}
