// The arithmetic of samples in bytes.
#![tactic(auto)]

ghost use Rattle.std.specs.Prelude.{◌≡◌, ◌+◌, ◌-◌, ◌≤◌, ◌<◌, min, max, pos, nat_abs};
ghost use Rattle.plane_byte.specs.Arithmetic.{above_of, excess_of};

// A sample of at most 8 bits. It is held to 0..255, where it lies, because then one instruction narrows sixteen samples.
// Kept a function of its own: std's `as` and `min(255)` are not that instruction (by `min` applying luma took 1.05 times as long).
pub fn narrow(x: u16) -> u8
    requires { x < 256 }
    ensures { result ≡ x }
{
    (x as i16).clamp(0, 255) as u8
}

// How far a is above b, constrained. Kept beside arith_sample::constrain_tap, which takes words, a sign and shifts of up to 15.
pub fn above(a: u8, b: u8, s: u8, sh: u32) -> u8
    requires { sh < 8 }
    ensures { (result ≡ above_of a b s sh) × (result ≤ s) }
{
    let d = a.saturating_sub(b);
    let size = d + b.saturating_sub(a);
    d.min(s.saturating_sub(size >> sh))
}

// What is left of a sum over the opposite one, rounded.
pub fn left(a: u8, b: u8) -> u8
    requires { a ≤ 228 }
    ensures { result ≡ excess_of a b }
{
    (a.saturating_sub(b) + 8) >> 4
}
