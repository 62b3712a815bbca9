// The cost of each direction of eight blocks in lanes. Lines n and 14 - n weigh the same: the eleven lines of an odd direction stand at 2 to 12, and past eight straight lines there are zeros.
// Kept as clauses: Within, as in direction_lane_sums; and at most 880803840, as in direction_costs.
#![tactic(auto)]

ghost use Rattle.std.specs.Prelude.{◌≡◌, ◌+◌, ◌*◌, ◌/◌, ◌≤◌, ◌<◌, length};
ghost use Rattle.arith_sample.specs.Bounds.{Within};
ghost use Rattle.arith_sample.specs.Upto.{upto};
ghost use Rattle.cdef_spec.specs.Standard.{square};
ghost use Rattle.direction_costs.specs.Costs.{entry};
ghost use Rattle.direction_lane_costs.specs.Costs.{ends_of, squares_of, weighed_of, LaneCostsFit, cost_of, written, CostsTo, costs_of};

use direction_lane_sums::Step;
use std::array;

// How many samples the lines of a direction have: 8 each in directions 2 and 6, 1 to 8 and back to 1 in 0 and 4, and in the odd ones between.
#[derive(Clone, Copy)]
pub enum Lines {
    Straight,
    Between,
    Diagonal,
}

// Lines n and 14 - n of each lane side by side, for n below 8, so that one instruction squares and adds both.
// Kept by index: by array::from_fn, k in pair k / 16, the direction pass took 1.69 times the time; with the squares taken straight from p, 1.80 times.
fn ends(p: &[i16; 128]) -> [i16; 128]
    requires { Within p.now 2048 }
    ensures { result ≡ ends_of p.now }
{
    let mut z = [0i16; 128];
    for n in 0..8usize {
        let to = n * 16;
        let a = n * 8;
        let b = (14 - n) * 8;
        for l in 0..8usize {
            z[to + 2 * l] = p[a + l];
            z[to + 2 * l + 1] = p[b + l];
        }
    }
    z
}

// The squares of lines that stand side by side, added.
fn squared(z: &[i16; 128], k: usize) -> u32
    requires { k < 64 }
    ensures { result ≡ square (entry z.now (2 * k)) + square (entry z.now (2 * k + 1)) }
{
    arith_numbers::square_of(z[2 * k]) + arith_numbers::square_of(z[2 * k + 1])
}

// Those of lines n and 14 - n of each lane.
fn squares(p: &[i16; 128]) -> [u32; 64]
    requires { Within p.now 2048 }
    ensures { result ≡ squares_of p.now }
{
    let z = ends(p);
    array::from_fn(|k| squared(&z, k))
}

// A sum of squares times the divisor of lines of n samples.
fn times(x: u32, n: u32) -> u32
    requires { (1 ≤ n) × (n ≤ 8) × (x * (840 / n) ≤ 880803840) }
    ensures { result ≡ x * (840 / n) }
{
    x * arith_tables::divisor(n)
}

// The cost of lane l, from the squares of its lines, each times 840 / (samples on the line). The divisors of 1, 2 and 4 are 8, 4 and 2 times that of 8,
// the divisor of 3 twice that of 6. Line 7 is its own counterpart, and counted twice.
#[tactic(auto, unfolding(crate::specs::Costs::weighed_of, crate::specs::Costs::weigh))]
fn weighed(q: &[u32; 64], l: usize, kind: Lines) -> u32
    requires { (l < 8) × (weighed_of kind q.now l ≤ 880803840) }
    ensures { result ≡ weighed_of kind q.now l }
{
    let a = q[l];
    let b = q[8 + l];
    let c = q[16 + l];
    let d = q[24 + l];
    let e = q[32 + l];
    let f = q[40 + l];
    let g = q[48 + l];
    let h = q[56 + l] >> 1;
    match kind {
        Lines::Straight => times(a + b + c + d + (e + f + g + h), 8),
        Lines::Between => times(c * 4 + d * 2 + (f + g + h), 8) + times(e, 6),
        Lines::Diagonal => {
            times(a * 8 + b * 4 + d * 2 + h, 8) + times(c * 2 + f, 6) + times(e, 5) + times(g, 7)
        }
    }
}

// The costs of the eight lanes.
fn cost(p: &[i16; 128], kind: Lines) -> [u32; 8]
    requires { Within p.now 2048 × LaneCostsFit p.now kind }
    ensures { result ≡ upto (cost_of p.now kind) 8 }
{
    let q = squares(p);
    array::from_fn(|l| weighed(&q, l, kind))
}

// Writes the costs of direction d. Kept by index: by copy_from_slice the direction pass took 1.06 times the time.
fn put(c: &mut [u32; 64], d: usize, q: &[u32; 8])
    requires { d < 8 }
    ensures { c.new ≡ written c.old (d * 8) q.now 8 }
{
    let to = d * 8;
    for l in 0..8usize {
        c[to + l] = q[l];
    }
}

// Directions 0 to 3: 0 from the rows, the others from sums of neighbours in a row.
// Kept beside last_costs: one function for both, the sums and steps as parameters, made the direction pass take 1.45 times the time; one for all eight 1.10.
fn first_costs(c: &mut [u32; 64], s: &[i16; 512])
    requires costs_to { CostsTo s.now c.old 0 }
    requires within { Within s.now 128 }
    ensures { CostsTo s.now c.new 32 }
{
    let h = direction_lane_sums::pairs(s, 16, 64, 8);
    put(
        c,
        0,
        &cost(
            &direction_lane_sums::lines(s, 8, 0, Step::Next),
            Lines::Diagonal,
        ),
    );
    put(
        c,
        1,
        &cost(
            &direction_lane_sums::lines(&h, 4, 2, Step::Next),
            Lines::Between,
        ),
    );
    put(
        c,
        2,
        &cost(
            &direction_lane_sums::lines(&h, 4, 0, Step::Same),
            Lines::Straight,
        ),
    );
    put(
        c,
        3,
        &cost(
            &direction_lane_sums::lines(&h, 4, 2, Step::Back),
            Lines::Between,
        ),
    );
}

// Directions 4 to 7: 4 from the rows, its lines in the opposite order, the others from sums of neighbours in a column. Kept beside first_costs, as said there.
fn last_costs(c: &mut [u32; 64], s: &[i16; 512])
    requires costs_to { CostsTo s.now c.old 32 }
    requires within { Within s.now 128 }
    ensures { CostsTo s.now c.new 64 }
{
    let v = direction_lane_sums::pairs(s, 128, 8, 64);
    put(
        c,
        4,
        &cost(
            &direction_lane_sums::lines(s, 8, 0, Step::Back),
            Lines::Diagonal,
        ),
    );
    put(
        c,
        5,
        &cost(
            &direction_lane_sums::lines(&v, 4, 2, Step::Back),
            Lines::Between,
        ),
    );
    put(
        c,
        6,
        &cost(
            &direction_lane_sums::lines(&v, 4, 0, Step::Same),
            Lines::Straight,
        ),
    );
    put(
        c,
        7,
        &cost(
            &direction_lane_sums::lines(&v, 4, 2, Step::Next),
            Lines::Between,
        ),
    );
}

// The costs: direction d of lane l at 8 d + l.
pub fn costs(s: &[i16; 512]) -> [u32; 64]
    requires { Within s.now 128 }
    ensures { result ≡ costs_of s.now }
{
    let mut c = [0u32; 64];
    first_costs(&mut c, s);
    last_costs(&mut c, s);
    c
}
