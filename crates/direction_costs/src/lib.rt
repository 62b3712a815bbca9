// The cost of a direction from its line sums. No cost exceeds 880,803,840 = 840 * 64 * 128 * 128: the sum of a line of n samples, each at most 128 in size,
// is at most 128 * n, so that its square times 840 / n is at most 840 * 128 * 128 * n, and the lines of a direction have 64 samples.
// Kept as clauses: 1 ≤ n and n ≤ 8, the range of the divisors: each call here writes its n out; and at most 880803840, which is a bound on what a function computes of its list,
// not on the list: a ghost field could hold it only of a list and a direction together, three types for three functions.
#![tactic(auto)]

ghost use Rattle.std.specs.Prelude.{◌≡◌, ◌+◌, ◌*◌, ◌≤◌, ◌<◌};
ghost use Rattle.cdef_spec.specs.Standard.{square, div_by, cost_straight, cost_diagonal, cost_between};
ghost use Rattle.direction_costs.specs.Costs.{entry};

// A line of n samples.
fn one(l: &[i16; 16], a: usize, n: u32) -> u32
    requires { (a < 16) × (1 ≤ n) × (n ≤ 8) × (square (entry l.now a) * div_by n ≤ 880803840) }
    ensures { result ≡ square (entry l.now a) * div_by n }
{
    arith_numbers::square_of(l[a]) * arith_tables::divisor(n)
}

// Two lines of n samples.
fn two(l: &[i16; 16], a: usize, b: usize, n: u32) -> u32
    requires { (a < 16) × (b < 16) × (1 ≤ n) × (n ≤ 8) × ((square (entry l.now a) + square (entry l.now b)) * div_by n ≤ 880803840) }
    ensures { result ≡ (square (entry l.now a) + square (entry l.now b)) * div_by n }
{
    (arith_numbers::square_of(l[a]) + arith_numbers::square_of(l[b])) * arith_tables::divisor(n)
}

// Directions 2 and 6: eight lines of 8 samples.
pub fn cost_straight(l: &[i16; 16]) -> u32
    requires { cost_straight (entry l.now) ≤ 880803840 }
    ensures { result ≡ cost_straight (entry l.now) }
{
    two(l, 0, 1, 8) + two(l, 2, 3, 8) + two(l, 4, 5, 8) + two(l, 6, 7, 8)
}

// Directions 0 and 4: fifteen lines, of 1 to 8 and back to 1 samples.
pub fn cost_diagonal(l: &[i16; 16]) -> u32
    requires { cost_diagonal (entry l.now) ≤ 880803840 }
    ensures { result ≡ cost_diagonal (entry l.now) }
{
    two(l, 0, 14, 1)
        + two(l, 1, 13, 2)
        + two(l, 2, 12, 3)
        + two(l, 3, 11, 4)
        + two(l, 4, 10, 5)
        + two(l, 5, 9, 6)
        + two(l, 6, 8, 7)
        + one(l, 7, 8)
}

// The odd directions: eleven lines, of 2, 4 and 6 samples at either end and of 8 between.
pub fn cost_between(l: &[i16; 16]) -> u32
    requires { cost_between (entry l.now) ≤ 880803840 }
    ensures { result ≡ cost_between (entry l.now) }
{
    two(l, 0, 10, 2)
        + two(l, 1, 9, 4)
        + two(l, 2, 8, 6)
        + two(l, 3, 7, 8)
        + two(l, 4, 6, 8)
        + one(l, 5, 8)
}
