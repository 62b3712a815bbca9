// The square root of an f64, computed in whole numbers, and the truncation of an f64 to a whole number.
// Kept beside `f64::sqrt`, `u64::isqrt` and `as u64`: that the root is computed in whole numbers, by guesses that stop when it has settled, and the truncation from the bits, is a
// rule of the project (docs/DIFFERENCES.md). `f64::sqrt` promises the value of std's own definition; that this is `root_of`, to which no other f64 is nearer, would be left open.
// Kept as a number with its bounds: h stands in the contracts of three functions that hand it on unchanged; as a struct it would be built once and read as `h.0` in each.
#![tactic(auto)]

ghost use Rattle.std.specs.Prelude.{◌≡◌, ◌+◌, ◌*◌, ◌^◌, ◌<◌, ◌≤◌, T};
ghost use Rattle.std.specs.Float.Ieee as Ieee;
ghost use Rattle.cdef_spec.specs.Root.{root_of, IsNearestRoot};
ghost use Rattle.arith_root.specs.RootWords.{NearestWhole, is_root, normal, two53};

// The first 27 bits of the significand of s, where it is 1 or more.
fn leading(s: f64) -> u64
    ensures { (2 ^ 26 ≤ result) × (result < 2 ^ 27) }
{
    if s >= 1.0 {
        return (0x10_0000_0000_0000 + f64::to_bits(s) % 0x10_0000_0000_0000) / 0x400_0000;
    }
    0x400_0000
}

// A guess at the square root of h: with x for h / 2^52 or h / 2^53, from 1 to 4, three of Newton's steps to 1 / sqrt(x), then the leading bits of x / sqrt(x).
// Only its range is promised.
fn first_guess(h: u64) -> u64
    requires { (2 ^ 52 ≤ h) × (h < 2 ^ 54) }
    ensures { (2 ^ 26 ≤ result) × (result < 2 ^ 27) }
{
    let b = if h < 0x20_0000_0000_0000 {
        1022 * 0x10_0000_0000_0000 + h
    } else {
        1023 * 0x10_0000_0000_0000 + h / 2
    };
    let x = f64::from_bits(b);
    let half = 0.5 * x;
    let y = f64::from_bits(0x5fe6_eb50_c7b5_37a9 - b / 2);
    let y = y * (1.5 - half * y * y);
    let y = y * (1.5 - half * y * y);
    let y = y * (1.5 - half * y * y);
    leading(x * y)
}

// Whether g is the integer square root of h.
fn settled(h: u64, g: u64) -> bool
    requires { g ≤ 2 ^ 28 }
    ensures { result ≡ is_root h g }
{
    g * g <= h && h - g * g <= 2 * g
}

// The integer square root of h: a guess, and where it has not settled, the next by a division.
fn whole_root(h: u64) -> u64
    requires { (2 ^ 52 ≤ h) × (h < 2 ^ 54) }
    ensures { (result * result ≤ h) × (h < (result + 1) * (result + 1)) }
{
    let mut g = first_guess(h);
    loop {
        if settled(h, g) {
            break g;
        }
        g = (g + h / g) / 2;
    }
}

// The whole number nearest to the square root of h * 2^52: the square root of h, then 26 bits more by one division.
fn wide_root(h: u64) -> u64
    requires { (2 ^ 52 ≤ h) × (h < 2 ^ 54) }
    ensures { NearestWhole (h * 2 ^ 52) result }
{
    let top = whole_root(h);
    let rest = (h - top * top) * 0x400_0000;
    let twice = top * 2;
    let q = rest / twice;
    let u = rest % twice;
    let s = top * 0x400_0000 + q;
    if q * q + s < u * 0x400_0000 { s + 1 } else { s }
}

// The f64 nearest to the square root of v, by v's bits: the 53-bit significand, shifted left by one where the exponent
// field is even, the square root of that shifted left by 52, and half the exponent.
pub fn root(v: f64) -> f64
    requires { T (normal v) }
    ensures { (result ≡ root_of v) × IsNearestRoot v result }
{
    let b = f64::to_bits(v);
    let field = b / 0x10_0000_0000_0000;
    let m = 0x10_0000_0000_0000 + b % 0x10_0000_0000_0000;
    let h = if field % 2 == 0 { m * 2 } else { m };
    let n = wide_root(h);
    f64::from_bits((field + 1023) / 2 * 0x10_0000_0000_0000 + (n - 0x10_0000_0000_0000))
}

// x truncated to a whole number, by its bits: the significand, shifted right as far as the exponent says.
pub fn truncate(x: f64) -> u64
    requires { (T (normal x)) × (T (Ieee.lt x two53)) }
    ensures { result ≡ Ieee.to_unsigned 64 x }
{
    let b = f64::to_bits(x);
    let field = b / 0x10_0000_0000_0000;
    if field < 1023 {
        return 0;
    }
    let m = 0x10_0000_0000_0000 + b % 0x10_0000_0000_0000;
    m >> (1075 - field)
}
