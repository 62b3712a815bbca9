// Sixteen samples from their taps, each list of taps in the samples' order.
// Kept as lists one by one: with one strength a sample has four or eight taps, with both twelve; as an array of arrays each list would be named by a number.
// LowPairs of four of them at a time is the clause; as ghost fields of a struct it would be proved at each of thirteen calls of gather in place of three times.
ghost use Rattle.std.specs.Prelude.{◌≡◌, ◌<◌};
ghost use Rattle.filter_rows.specs.Sums.{InRange};
ghost use Rattle.plane_taps.specs.Plain.{AllLow};
ghost use Rattle.plane_fours.specs.Fours.{LowPairs, pair_in, both_lane, pri_lane, sec_lane, both_lanes, pri_lanes, sec_lanes};

use filter_limits::Pair;
use filter_rows::Strength;
use plane_taps::plain;
use std::array;

// Sample j's tap and its opposite.
#[tactic(auto, unfolding(crate::specs::Fours::pair_in))]
fn pair(on: &[u16; 16], back: &[u16; 16], j: usize) -> Pair
    requires { j < 16 }
    ensures { result ≡ pair_in on.now back.now j }
{
    Pair {
        on: on[j],
        back: back[j],
    }
}

// Sample j with both strengths.
fn both_at(
    c: &[u16; 16],
    a0: &[u16; 16],
    b0: &[u16; 16],
    a1: &[u16; 16],
    b1: &[u16; 16],
    a2: &[u16; 16],
    b2: &[u16; 16],
    a3: &[u16; 16],
    b3: &[u16; 16],
    a4: &[u16; 16],
    b4: &[u16; 16],
    a5: &[u16; 16],
    b5: &[u16; 16],
    f: Strength,
    g: Strength,
    j: usize,
) -> u16
    requires { (j < 16) × AllLow c.now × LowPairs a0.now b0.now a1.now b1.now × LowPairs a2.now b2.now a3.now b3.now
        × LowPairs a4.now b4.now a5.now b5.now × InRange f × InRange g }
    ensures { result ≡ both_lane c.now a0.now b0.now a1.now b1.now a2.now b2.now a3.now b3.now a4.now b4.now a5.now b5.now f g j }
{
    let m = plain::first(pair(a0, b0, j), pair(a1, b1, j), c[j], f);
    let q0 = pair(a2, b2, j);
    let q1 = pair(a3, b3, j);
    let r0 = pair(a4, b4, j);
    let r1 = pair(a5, b5, j);
    plain::last(m, q0, q1, r0, r1, c[j], g)
}

// With the primary strength alone.
fn pri_at(
    c: &[u16; 16],
    a0: &[u16; 16],
    b0: &[u16; 16],
    a1: &[u16; 16],
    b1: &[u16; 16],
    f: Strength,
    j: usize,
) -> u16
    requires { (j < 16) × AllLow c.now × LowPairs a0.now b0.now a1.now b1.now × InRange f }
    ensures { result ≡ pri_lane c.now a0.now b0.now a1.now b1.now f j }
{
    let s = plain::pri_sum(pair(a0, b0, j), pair(a1, b1, j), c[j], f);
    arith_sample::raised(c[j], s)
}

// With the secondary strength alone.
fn sec_at(
    c: &[u16; 16],
    a0: &[u16; 16],
    b0: &[u16; 16],
    a1: &[u16; 16],
    b1: &[u16; 16],
    a2: &[u16; 16],
    b2: &[u16; 16],
    a3: &[u16; 16],
    b3: &[u16; 16],
    f: Strength,
    j: usize,
) -> u16
    requires { (j < 16) × AllLow c.now × LowPairs a0.now b0.now a1.now b1.now × LowPairs a2.now b2.now a3.now b3.now × InRange f }
    ensures { result ≡ sec_lane c.now a0.now b0.now a1.now b1.now a2.now b2.now a3.now b3.now f j }
{
    let q0 = pair(a0, b0, j);
    let q1 = pair(a1, b1, j);
    let r0 = pair(a2, b2, j);
    let r1 = pair(a3, b3, j);
    arith_sample::raised(c[j], plain::sec_sum(q0, q1, r0, r1, c[j], f))
}

// The samples with both strengths.
pub fn both(
    c: &[u16; 16],
    a0: &[u16; 16],
    b0: &[u16; 16],
    a1: &[u16; 16],
    b1: &[u16; 16],
    a2: &[u16; 16],
    b2: &[u16; 16],
    a3: &[u16; 16],
    b3: &[u16; 16],
    a4: &[u16; 16],
    b4: &[u16; 16],
    a5: &[u16; 16],
    b5: &[u16; 16],
    f: Strength,
    g: Strength,
) -> [u16; 16]
    requires { AllLow c.now × LowPairs a0.now b0.now a1.now b1.now × LowPairs a2.now b2.now a3.now b3.now
        × LowPairs a4.now b4.now a5.now b5.now × InRange f × InRange g }
    ensures { result ≡ both_lanes c.now a0.now b0.now a1.now b1.now a2.now b2.now a3.now b3.now a4.now b4.now a5.now b5.now f g }
{
    array::from_fn(|j| both_at(c, a0, b0, a1, b1, a2, b2, a3, b3, a4, b4, a5, b5, f, g, j))
}

// With the primary strength alone.
pub fn pri(
    c: &[u16; 16],
    a0: &[u16; 16],
    b0: &[u16; 16],
    a1: &[u16; 16],
    b1: &[u16; 16],
    f: Strength,
) -> [u16; 16]
    requires { AllLow c.now × LowPairs a0.now b0.now a1.now b1.now × InRange f }
    ensures { result ≡ pri_lanes c.now a0.now b0.now a1.now b1.now f }
{
    array::from_fn(|j| pri_at(c, a0, b0, a1, b1, f, j))
}

// With the secondary strength alone.
pub fn sec(
    c: &[u16; 16],
    a0: &[u16; 16],
    b0: &[u16; 16],
    a1: &[u16; 16],
    b1: &[u16; 16],
    a2: &[u16; 16],
    b2: &[u16; 16],
    a3: &[u16; 16],
    b3: &[u16; 16],
    f: Strength,
) -> [u16; 16]
    requires { AllLow c.now × LowPairs a0.now b0.now a1.now b1.now × LowPairs a2.now b2.now a3.now b3.now × InRange f }
    ensures { result ≡ sec_lanes c.now a0.now b0.now a1.now b1.now a2.now b2.now a3.now b3.now f }
{
    array::from_fn(|j| sec_at(c, a0, b0, a1, b1, a2, b2, a3, b3, f, j))
}
