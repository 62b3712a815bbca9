// The twelve pairs that are tried: the pair of a trial number, and the trial number of a pair.
// Kept as a number: a trial is the index of its entry in lists of twelve and in the totals, so that a struct around it would be opened at each use.
#![tactic(auto)]

ghost use Rattle.std.specs.Prelude.{◌≡◌, cond, ◌<◌, IfSome, Some, None};
ghost use Rattle.cdef_spec.specs.Document01.{trial_pair, is_trial_pair, trial_number};

use cdef_spec::UnitPair;

// The pair of a trial number, which is secondary index * 4 + primary index; the primaries are 0, 1, 2 and 4.
pub fn trial_pair(t: usize) -> UnitPair
    requires { t < 12 }
    ensures { result ≡ trial_pair t }
{
    let primary = match t % 4 {
        3 => 4,
        p => p as u8,
    };
    let secondary = (t / 4) as u8;
    UnitPair { primary, secondary }
}

// The trial number of a pair, if it is one of the twelve.
pub fn trial_of(pair: UnitPair) -> Option<usize>
    ensures number { result ≡ cond (is_trial_pair pair) (Some (trial_number pair)) None }
    ensures below_12 { IfSome result (λ t. t < 12) }
{
    let row = pair.secondary as usize * 4;
    match (pair.secondary, pair.primary) {
        (0..=2, 0..=2) => Some(row + pair.primary as usize),
        (0..=2, 4) => Some(row + 3),
        _ => None,
    }
}

// Whether a pair is one of the twelve.
pub fn is_trial_pair(pair: UnitPair) -> bool
    ensures { result ≡ is_trial_pair pair }
{
    trial_of(pair).is_some()
}
