// Applying: the snapshot filtered into a destination, each unit with its own pair of the caller's slice.
// Kept as parameters: the slices that a caller lends, one by one and in the order of docs/CALLS.md.
ghost use Rattle.std.specs.Prelude.{◌≡◌};
ghost use Rattle.cdef_spec.specs.Answers.{read_done};
ghost use Rattle.cdef_spec.specs.Lent.{picture_in};
ghost use Rattle.cdef_spec.specs.FrameCalls.{applying_outcome};
ghost use Rattle.cdef_pairs.specs.Applying.{applying_by_outcome};

use cdef_pairs::{PairSlice, Pairs};
use cdef_spec::{Picture, Refusal, SignalledDamping, UnitPair};

// Applying in a plane of a picture with any list of unit pairs, by the list's own tests of questions 7 and 8.
pub fn apply_pairs<P: Pairs>(
    dst: &mut [u16],
    snapshot: &[u16],
    picture: &Picture<'_>,
    pairs: &P,
    damping: Option<SignalledDamping>,
) -> Result<(), Refusal>
    ensures { applying_by_outcome (picture_in picture.now) damping snapshot.now (P.listed pairs.now) (P.taken pairs.now)
        (P.pairs pairs.now) dst.old ≡ record { answer = read_done result; plane = dst.new } }
{
    frame_calls::applying(dst, snapshot, picture, pairs, damping)
}

// Applying in a plane of a picture, one pair per unit. The destination's length is checked; its old contents are not examined.
pub fn apply_units(
    dst: &mut [u16],
    snapshot: &[u16],
    picture: &Picture<'_>,
    pairs: &[UnitPair],
    damping: Option<SignalledDamping>,
) -> Result<(), Refusal>
    ensures { applying_outcome (picture_in picture.now) damping snapshot.now pairs.now dst.old
        ≡ record { answer = read_done result; plane = dst.new } }
{
    apply_pairs(dst, snapshot, picture, &PairSlice { units: pairs }, damping)
}
