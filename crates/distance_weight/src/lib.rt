// The weighted distance from spreads and squares, each f64 operation rounded once, in the order of RULES, Distance.
// Kept with the depth in each contract: DistanceConstants is the type of the definitions (constants_of, weight, weighted), two f64 without a depth. A type with
// the depth and OfDepth would be a second one round it, taken apart at each definition, and what is asked of a spread would name its depth all the same.
#![tactic(auto)]

ghost use Rattle.std.specs.Prelude.{◌≡◌, ℕ, ◌≤◌};
ghost use Rattle.cdef_spec.specs.Distance.{constants_of, weight as weight_of, weighted as weighted_of, squares_limit};
ghost use Rattle.distance_weight.specs.Weighing.{OfDepth, Weighs, times_of};

use cdef_spec::DistanceConstants;

// c1 and c2 of a depth.
pub fn constants_of(depth: u8) -> DistanceConstants
    requires { (8 ≤ depth) × (depth ≤ 12) }
    ensures { result ≡ constants_of depth }
{
    let k = (depth - 8) as u32;
    let c1 = 400u64 << (2 * k);
    let c2 = 20000u64 << (4 * k);
    DistanceConstants {
        c1: c1 as f64,
        c2: c2 as f64,
    }
}

// (0.5 * (a + b + c1)) / sqrt(c2 + a * b).
pub fn weight(a: u64, b: u64, c: DistanceConstants) -> f64
    requires { (depth : ℕ) × OfDepth c depth × (a ≤ squares_limit depth) × (b ≤ squares_limit depth) }
    ensures { result ≡ weight_of c a b }
{
    let fa = a as f64;
    let fb = b as f64;
    0.5 * (fa + fb + c.c1) / arith_root::root(c.c2 + fa * fb)
}

// 0.5 + e * w, truncated to a whole number.
pub fn times(e: u64, w: f64) -> u64
    requires { Weighs w e }
    ensures { result ≡ times_of e w }
{
    arith_root::truncate(0.5 + e as f64 * w)
}

// 0.5 + e * weight, truncated to a whole number.
pub fn weighted(a: u64, b: u64, e: u64, c: DistanceConstants) -> u64
    requires { (depth : ℕ) × OfDepth c depth × (a ≤ squares_limit depth) × (b ≤ squares_limit depth) × (e ≤ squares_limit depth) }
    ensures { result ≡ weighted_of c a b e }
{
    let w = weight(a, b, c);
    times(e, w)
}
