// Applying with the pairs as two plain lists, for C. Validation and promise are those of cdef::applying; no function here requires anything.
// Kept as parameters: as in cdef::applying.
#![tactic(auto)]

ghost use Rattle.std.specs.Prelude.{◌≡◌};
ghost use Rattle.cdef_spec.specs.Answers.{read_done};
ghost use Rattle.cdef_spec.specs.Lent.{picture_in};
ghost use Rattle.cdef_spec.specs.FrameCalls.{applying_lists_outcome};

use cdef_pairs::StrengthLists;
use cdef_spec::{Picture, Refusal, SignalledDamping};

// Applying in a plane of a picture, a primary and a secondary strength per unit. Kept as two lists, since C passes them so. The destination's length is checked; its old contents are not examined.
pub fn apply_units(
    dst: &mut [u16],
    snapshot: &[u16],
    picture: &Picture<'_>,
    pris: &[u8],
    secs: &[u8],
    damping: Option<SignalledDamping>,
) -> Result<(), Refusal>
    ensures { applying_lists_outcome (picture_in picture.now) damping snapshot.now pris.now secs.now dst.old
        ≡ record { answer = read_done result; plane = dst.new } }
{
    frame_calls::applying(
        dst,
        snapshot,
        picture,
        &StrengthLists { pris, secs },
        damping,
    )
}
