// Applying with any list of unit pairs: the checks, then the core. Nothing is written where a check fails.
// Kept as parameters: as in `cdef::applying`, whose arguments these are.
#![tactic(auto)]

ghost use Rattle.std.specs.Prelude.{◌≡◌};
ghost use Rattle.cdef_spec.specs.Answers.{read_done};
ghost use Rattle.cdef_spec.specs.Lent.{picture_in};
ghost use Rattle.cdef_pairs.specs.Applying.{applying_by_outcome};

use cdef_pairs::Pairs;
use cdef_spec::{Picture, Refusal, SignalledDamping};

// Applying: the snapshot filtered into a destination, each unit with its pair.
pub fn applying<P: Pairs>(
    dst: &mut [u16],
    snapshot: &[u16],
    picture: &Picture<'_>,
    pairs: &P,
    damping: Option<SignalledDamping>,
) -> Result<(), Refusal>
    ensures { applying_by_outcome (picture_in picture.now) damping snapshot.now (P.listed pairs.now) (P.taken pairs.now)
        (P.pairs pairs.now) dst.old ≡ record { answer = read_done result; plane = dst.new } }
{
    let input = check_frame::applying(picture, damping, snapshot, dst, pairs)?;
    apply_plane::apply_plane(dst, &input, pairs);
    Ok(())
}
