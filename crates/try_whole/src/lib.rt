// Whole luma blocks: the weighted distances of twelve trial blocks, in loops of their own for the sums, the weights and the distances.
// Kept with the depth in each contract: as in distance_weight, whose facts are handed on.
#![tactic(auto)]

ghost use Rattle.std.specs.Prelude.{◌≡◌, ℕ, ◌*◌, ◌^◌, ◌≤◌, ◌<◌, get_or};
ghost use Rattle.std.specs.Float.{nan};
ghost use Rattle.cdef_spec.specs.Distance.{squares_limit, weight};
ghost use Rattle.arith_sample.specs.Upto.{upto};
ghost use Rattle.distance_weight.specs.Weighing.{OfDepth, Weighs};
ghost use Rattle.distance_sums.specs.Blocks.{Below, Within};
ghost use Rattle.try_whole.specs.Whole.{spreads_of, errors_of, weights_of, times_at, whole_distances};

use cdef_spec::DistanceConstants;
use std::array;

// Kept as two lists, and by index: one list of pairs, which `array::from_fn` makes, measured 1.04 times the time of trying luma.
// Of twelve trial blocks: their spreads, and their squared differences from an original.
#[derive(Clone, Copy)]
pub struct Sums {
    pub spreads: [u64; 12],
    pub errors: [u64; 12],
}

// Kept by index: see above.
fn sums_of(a: &[u16; 64], blocks: &[u16]) -> Sums
    requires { (depth : ℕ) × (depth ≤ 12) × Below a.now (2 ^ depth) × ((t : ℕ) → t < 12 → Within blocks.now (t * 64) 8 8 8 (2 ^ depth)) }
    ensures { (result.spreads ≡ spreads_of blocks.now) × (result.errors ≡ errors_of a.now blocks.now) }
{
    let mut spreads = [0u64; 12];
    let mut errors = [0u64; 12];
    for t in 0..12usize {
        let b = distance_sums::block_of(blocks, t * 64, 8);
        spreads[t] = distance_block::spread_of(&b);
        errors[t] = distance_sums::block_squares(a, &b) as u64;
    }
    Sums { spreads, errors }
}

// The weight of a spread x and a spread b, after v, that of x and the spread `last`: equal trial blocks have equal spreads, and so one weight.
fn weight_after(x: u64, b: u64, last: u64, v: f64, c: DistanceConstants) -> f64
    requires spreads_taken { (depth : ℕ) × OfDepth c depth × (x ≤ squares_limit depth) × (b ≤ squares_limit depth) }
    requires last_weight { v ≡ weight c x last }
    ensures { result ≡ weight c x b }
{
    if b == last {
        return v;
    }
    distance_weight::weight(x, b, c)
}

// The weights of a spread x and twelve others.
fn weights_of(x: u64, b: &[u64; 12], c: DistanceConstants) -> [f64; 12]
    requires { (depth : ℕ) × OfDepth c depth × (x ≤ squares_limit depth) × ((t : ℕ) → t < 12 → get_or b.now t 0 ≤ squares_limit depth) }
    ensures { result ≡ weights_of c x b.now }
{
    let mut w = [0f64; 12];
    let mut last = b[0];
    let mut v = distance_weight::weight(x, last, c);
    for (t, spread) in b.iter().enumerate() {
        v = weight_after(x, *spread, last, v, c);
        last = *spread;
        w[t] = v;
    }
    w
}

// Squared differences, each times its weight.
fn weighted_errors(errors: &[u64; 12], weights: &[f64; 12]) -> [u64; 12]
    requires { (t : ℕ) → t < 12 → Weighs (get_or weights.now t nan) (get_or errors.now t 0) }
    ensures { result ≡ upto (times_at errors.now weights.now) 12 }
{
    array::from_fn(|t| distance_weight::times(errors[t], weights[t]))
}

// The distances between an original and the trial blocks.
pub fn whole_distances(a: &[u16; 64], blocks: &[u16], c: DistanceConstants) -> [u64; 12]
    requires { (depth : ℕ) × OfDepth c depth × Below a.now (2 ^ depth) × ((t : ℕ) → t < 12 → Within blocks.now (t * 64) 8 8 8 (2 ^ depth)) }
    ensures { result ≡ upto (whole_distances c a.now blocks.now) 12 }
{
    let x = distance_block::spread_of(a);
    let s = sums_of(a, blocks);
    let w = weights_of(x, &s.spreads, c);
    weighted_errors(&s.errors, &w)
}
