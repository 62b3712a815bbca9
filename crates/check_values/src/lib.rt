// Questions 8 and 9 of single values: strengths, dampings, variances, the quality index, a difference. Each test has its definition's name.
#![tactic(auto, unfolding(cdef_spec::specs::Questions::strength_taken, cdef_spec::specs::Questions::working_taken, cdef_spec::specs::Questions::signalled_taken, cdef_spec::specs::Questions::variance_taken, cdef_spec::specs::Questions::index_taken, cdef_spec::specs::Questions::difference_taken, cdef_spec::specs::Questions::primary_taken, cdef_spec::specs::Questions::secondary_taken, cdef_spec::specs::Questions::pair_taken, cdef_spec::specs::Questions::params_taken, cdef_spec::specs::Questions::way_taken))]

ghost use Rattle.std.specs.Prelude.{◌≡◌, ◌≤◌};
ghost use Rattle.cdef_spec.specs.Questions.{strength_taken, working_taken, signalled_taken, variance_taken, index_taken, difference_taken, primary_taken, secondary_taken, pair_taken, params_taken, way_taken};

use cdef_spec::{FilterParams, SignalledDamping, TrialWay, UnitPair, WorkingDamping};

// The largest variance that a block can have (RULES, Direction).
pub const VARIANCE_LIMIT: u32 = 860_160;

// 8: a strength passed to adjust or constrain, up to 240.
pub fn strength_taken(strength: u32) -> bool
    ensures { result ≡ strength_taken strength }
{
    strength <= 240
}

// 8: a working damping, 0 to 31.
pub fn working_taken(damping: WorkingDamping) -> bool
    ensures { result ≡ working_taken damping }
{
    damping.0 <= 31
}

// 8: a signalled damping, 3 to 6.
pub fn signalled_taken(d: SignalledDamping) -> bool
    ensures { result ≡ signalled_taken d }
{
    matches!(d.0, 3..=6)
}

// 8: a variance, up to 860,160.
pub fn variance_taken(variance: u32) -> bool
    ensures { result ≡ variance_taken variance }
{
    variance <= VARIANCE_LIMIT
}

// 8: a quality index, up to 255.
pub fn index_taken(index: u32) -> bool
    ensures { result ≡ index_taken index }
{
    index <= 255
}

// 9: a difference, -4,095 to 4,095.
pub fn difference_taken(difference: i32) -> bool
    ensures { result ≡ difference_taken difference }
{
    difference.unsigned_abs() <= 4095
}

// 8: a primary strength, 0 to 15.
pub fn primary_taken(n: u8) -> bool
    ensures { result ≡ primary_taken n }
{
    n <= 15
}

// 8: a secondary strength, 0, 1, 2 or 4.
pub fn secondary_taken(n: u8) -> bool
    ensures { result ≡ secondary_taken n }
{
    matches!(n, 0..=2 | 4)
}

// 8: a pair's strengths.
pub fn pair_taken(p: UnitPair) -> bool
    ensures { result ≡ pair_taken p }
{
    primary_taken(p.primary) && secondary_taken(p.secondary)
}

// 8: working strengths up to 15 and 4 shifted left by depth - 8, a direction below 8, a working damping up to 31.
pub fn params_taken(q: FilterParams) -> bool
    requires { (8 ≤ q.depth) × (q.depth ≤ 12) }
    ensures { result ≡ params_taken q }
{
    let shift = u32::from(q.depth - 8);
    q.pri <= 15 << shift && q.sec <= 4 << shift && q.dir < 8 && working_taken(q.damping)
}

// 8: a variance, which only a luma trial has.
pub fn way_taken(way: TrialWay) -> bool
    ensures { result ≡ way_taken way }
{
    match way {
        TrialWay::Luma(var) => variance_taken(var),
        TrialWay::Chroma => true,
    }
}
