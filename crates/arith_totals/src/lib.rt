// Unit totals as the frame loops build them up: a distance added, or twelve; their steps and bounds are laws.
#![tactic(auto)]

ghost use Rattle.std.specs.Prelude.{◌≡◌, List, ℕ, ◌+◌, ◌^◌, ◌≤◌, ◌<◌, pos, get_or, length, replicate};
ghost use Rattle.cdef_spec.specs.LoopForm.{signed, add_at, add_turns};
ghost use Rattle.arith_totals.specs.Small.{Small};
ghost use Rattle.arith_totals.specs.Turns.{plain_of, Low};

// Adds a distance to the total of unit u.
pub fn add_at(totals: &mut [i64], u: usize, n: u64)
    requires { (u < length totals.old) × (n < 2 ^ 53) × ((t : List ℕ) × (totals.old ≡ signed t) × Small t) }
    ensures { (t : List ℕ) → totals.old ≡ signed t → totals.new ≡ signed (add_at t u n) }
{
    totals[u] += n as i64;
}

// Adds twelve distances to twelve totals, from `base` on. Kept by index, and beside add_at: `totals[base..base + 12].iter_mut().zip(distances)` names the twelve once more,
// and each step is add_at's but for its contract, which is of lists of totals that are small, not of twelve entries.
pub fn add_twelve(totals: &mut [i64], base: usize, distances: [u64; 12])
    requires { (base + 12 ≤ length totals.old) × Low totals.old × ((t : ℕ) → t < 12 → get_or distances t 0 < 2 ^ 53) }
    ensures { totals.new ≡ signed (add_turns (plain_of totals.old) base (λ t. get_or distances t 0) 12) }
{
    for (t, distance) in distances.iter().enumerate() {
        totals[base + t] += *distance as i64;
    }
}
