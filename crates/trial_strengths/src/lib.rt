// The filter parameters of the twelve trials.
#![tactic(auto)]

ghost use Rattle.std.specs.Prelude.{◌≡◌, ◌≤◌, ◌<◌};
ghost use Rattle.trial_strengths.specs.Strengths.{adjusted_by, twelve_of};

use cdef_spec::{TrialWay, WorkingDamping};
use filter_rows::{Strength, Taps};

// The filter parameters of the twelve: the taps of direction 0, used where the signalled primary is 0, those of the block's own direction,
// three primary strengths and two secondary ones. The fourth primary and the third secondary are 0.
// Kept with a field for each: with arrays of three and of two the luma trial measured 1.02 times the time at both depths.
#[derive(Clone, Copy)]
pub struct Twelve {
    pub zero: Taps,
    pub own: Taps,
    pub p1: Strength,
    pub p2: Strength,
    pub p3: Strength,
    pub s1: Strength,
    pub s2: Strength,
}

// What a trial goes by: luma with its variance or chroma, the block's direction, the working damping, the depth.
#[derive(Clone, Copy)]
pub struct TrialParams {
    pub way: TrialWay,
    pub dir: u8,
    pub damping: WorkingDamping,
    pub depth: u8,
    pub ghost taken: { (dir < 8) × (damping.0 ≤ 31) },
    pub ghost deep: { (8 ≤ depth) × (depth ≤ 12) },
}

// A primary strength, in luma adjusted by the variance.
fn adjusted(way: TrialWay, s: u32) -> u32
    requires { s ≤ 240 }
    ensures { result ≡ adjusted_by way s }
{
    match way {
        TrialWay::Luma(var) => arith_strength::adjust_pri(s, var),
        TrialWay::Chroma => s,
    }
}

// The filter parameters of the twelve.
pub fn strengths(q: TrialParams) -> Twelve
    ensures { result ≡ twelve_of q.way q.dir q.damping q.depth }
{
    let d = filter_kernel::from_one(q.damping);
    let shift = (q.depth - 8) as u32;
    let one = 1u32 << shift;
    let two = 2u32 << shift;
    let four = 4u32 << shift;
    Twelve {
        zero: filter_kernel::taps(0),
        own: filter_kernel::taps(q.dir as usize),
        p1: filter_kernel::primary(adjusted(q.way, one) as u16, d, q.depth),
        p2: filter_kernel::primary(adjusted(q.way, two) as u16, d, q.depth),
        p3: filter_kernel::primary(adjusted(q.way, four) as u16, d, q.depth),
        s1: filter_kernel::secondary(one as u16, d),
        s2: filter_kernel::secondary(two as u16, d),
    }
}
