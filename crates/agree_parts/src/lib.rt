// What is done between trying, applying and measuring: the test that each pair is one of the twelve, and the copy of the snapshot.
#![tactic(auto)]

ghost use Rattle.std.specs.Prelude.{◌≡◌};
ghost use Rattle.agree_parts.specs.Parts.{trial_pairs, copied};

use cdef_pairs::Pairs;

// Whether each unit's pair is one of the twelve. More than 4,096 pairs are not checked: applying rejects them.
pub fn trial_pairs<P: Pairs>(pairs: &P) -> bool
    ensures { result ≡ trial_pairs (P.pairs pairs.now) }
{
    let n = pairs.count();
    4096 < n || (0..n).all(|u| arith_trials::is_trial_pair(pairs.pair(u)))
}

// Copies the snapshot into a destination of its length; one of another length is left as it is.
// Kept beside `copy_from_slice`, which requires equal lengths: no check has tested them here, and applying rejects a destination of another length.
#[tactic(auto, unfolding(crate::specs::Parts::copied))]
pub fn copy(dst: &mut [u16], snapshot: &[u16])
    ensures { dst.new ≡ copied snapshot.now dst.old }
{
    if dst.len() == snapshot.len() {
        dst.copy_from_slice(snapshot);
    }
}
