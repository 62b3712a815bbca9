// One sample from its taps, in bytes: what is above the centre and what is below it are summed apart.
// The taps stay numbers one by one (Kept): a struct of them would be built for each sample from twelve lists, field by field (`a0: a0[j], ..`), and pri, sec and
// four, which take four or eight of the twelve, would take it apart again. So do the numbers of a strength, which in filter_rows::Strength are words.
ghost use Rattle.std.specs.Prelude.{◌≡◌, ◌+◌, ◌<◌, ◌≤◌};
ghost use Rattle.plane_bytes.specs.Byte.{Mask, weigh_pri, weigh_sec, apart_of, pair_of, pri_of, sec_of, past_of, four_of, clipped_of, both_of};

// The side of the centre on which taps count. Kept as a const parameter, SIDE: as a closure it would be handed through apart, pair, pri and sec, and another
// one through past and four.
const UP: bool = true;

const DOWN: bool = false;

// How far a tap is above the centre, or below it, constrained.
fn apart<const SIDE: bool>(t: u8, c: u8, s: u8, sh: u32) -> u8
    requires { sh < 8 }
    ensures { (result ≡ apart_of SIDE t c s sh) × (result ≤ s) }
{
    if SIDE {
        plane_byte::above(t, c, s, sh)
    } else {
        plane_byte::above(c, t, s, sh)
    }
}

// The same of two opposite taps.
fn pair<const SIDE: bool>(a: u8, b: u8, c: u8, s: u8, sh: u32) -> u8
    requires { (s ≤ 15) × (sh < 8) }
    ensures { (result ≡ pair_of SIDE a b c s sh) × (result ≤ s + s) }
{
    apart::<SIDE>(a, c, s, sh) + apart::<SIDE>(b, c, s, sh)
}

// 4 n + 2 f, or 3 n + 3 f where all bits of odd are set.
fn weigh(n: u8, f: u8, odd: u8) -> u8
    requires { (n ≤ 30) × (f ≤ 30) × Mask odd }
    ensures { (result ≡ weigh_pri n f odd) × (result ≤ 180) }
{
    let t = n + f;
    t + t + n + (f.min(odd) + n.min(255 - odd))
}

// 2 n + f.
fn double(n: u8, f: u8) -> u8
    requires { (n ≤ 16) × (f ≤ 16) }
    ensures { (result ≡ weigh_sec n f) × (result ≤ 48) }
{
    n + n + f
}

// The primary taps.
fn pri<const SIDE: bool>(a0: u8, b0: u8, a1: u8, b1: u8, c: u8, s: u8, sh: u32, odd: u8) -> u8
    requires { (s ≤ 15) × (sh < 8) × Mask odd }
    ensures { (result ≡ pri_of SIDE a0 b0 a1 b1 c s sh odd) × (result ≤ 180) }
{
    weigh(
        pair::<SIDE>(a0, b0, c, s, sh),
        pair::<SIDE>(a1, b1, c, s, sh),
        odd,
    )
}

// The secondary taps.
fn sec<const SIDE: bool>(
    a0: u8,
    b0: u8,
    a1: u8,
    b1: u8,
    a2: u8,
    b2: u8,
    a3: u8,
    b3: u8,
    c: u8,
    s: u8,
    sh: u32,
) -> u8
    requires { (s ≤ 4) × (sh < 8) }
    ensures { (result ≡ sec_of SIDE a0 b0 a1 b1 a2 b2 a3 b3 c s sh) × (result ≤ 48) }
{
    double(
        pair::<SIDE>(a0, b0, c, s, sh) + pair::<SIDE>(a2, b2, c, s, sh),
        pair::<SIDE>(a1, b1, c, s, sh) + pair::<SIDE>(a3, b3, c, s, sh),
    )
}

// How far a tap is above the centre, or below it.
fn past<const SIDE: bool>(t: u8, c: u8) -> u8
    ensures { result ≡ past_of SIDE t c }
{
    if SIDE {
        t.saturating_sub(c)
    } else {
        c.saturating_sub(t)
    }
}

// The most of it of four taps.
fn four<const SIDE: bool>(a0: u8, b0: u8, a1: u8, b1: u8, c: u8) -> u8
    ensures { result ≡ four_of SIDE a0 b0 a1 b1 c }
{
    (past::<SIDE>(a0, c).max(past::<SIDE>(b0, c))).max(past::<SIDE>(a1, c).max(past::<SIDE>(b1, c)))
}

// The sample from its sums, clipped.
fn clipped(c: u8, up: u8, down: u8, high: u8, low: u8) -> u8
    requires { (up ≤ 228) × (down ≤ 228) × (high + c ≤ 255) × (low ≤ c) }
    ensures { result ≡ clipped_of c up down high low }
{
    c + plane_byte::left(up, down).min(high) - plane_byte::left(down, up).min(low)
}

// The sample filtered with both strengths.
pub fn both(
    a0: u8,
    b0: u8,
    a1: u8,
    b1: u8,
    a2: u8,
    b2: u8,
    a3: u8,
    b3: u8,
    a4: u8,
    b4: u8,
    a5: u8,
    b5: u8,
    c: u8,
    s: u8,
    sh: u32,
    odd: u8,
    s2: u8,
    sh2: u32,
) -> u8
    requires { (s ≤ 15) × (sh < 8) × Mask odd × (s2 ≤ 4) × (sh2 < 8) }
    ensures { result ≡ both_of a0 b0 a1 b1 a2 b2 a3 b3 a4 b4 a5 b5 c s sh odd s2 sh2 }
{
    let up = pri::<UP>(a0, b0, a1, b1, c, s, sh, odd)
        + sec::<UP>(a2, b2, a3, b3, a4, b4, a5, b5, c, s2, sh2);
    let down = pri::<DOWN>(a0, b0, a1, b1, c, s, sh, odd)
        + sec::<DOWN>(a2, b2, a3, b3, a4, b4, a5, b5, c, s2, sh2);
    let high = four::<UP>(a0, b0, a1, b1, c).max(four::<UP>(a2, b2, a3, b3, c).max(four::<UP>(
        a4, b4, a5, b5, c,
    )));
    let low = four::<DOWN>(a0, b0, a1, b1, c).max(four::<DOWN>(a2, b2, a3, b3, c).max(four::<DOWN>(
        a4, b4, a5, b5, c,
    )));
    clipped(c, up, down, high, low)
}
