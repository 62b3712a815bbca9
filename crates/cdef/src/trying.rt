// Trying: per unit the totals of distances between the original and the twelve trial blocks.
// Kept as parameters: as in applying.rt.
ghost use Rattle.std.specs.Prelude.{◌≡◌};
ghost use Rattle.cdef_spec.specs.Answers.{read_done};
ghost use Rattle.cdef_spec.specs.Lent.{picture_in};
ghost use Rattle.cdef_spec.specs.FrameCalls.{trying_outcome};

use cdef_spec::{Picture, Refusal, SignalledDamping, Visible};

// Trying in a plane of a picture. In luma whole blocks have the weighted distance and blocks cropped to the visible part plain squares; in chroma all have plain squares.
pub fn try_units(
    totals: &mut [i64],
    snapshot: &[u16],
    original: &[u16],
    picture: &Picture<'_>,
    visible: Visible,
    damping: Option<SignalledDamping>,
) -> Result<(), Refusal>
    ensures { trying_outcome (picture_in picture.now) damping visible snapshot.now original.now totals.old
        ≡ record { answer = read_done result; totals = totals.new } }
{
    let input = check_frame::trying(picture, damping, visible, snapshot, original, totals)?;
    try_plane::try_plane(totals, &input);
    Ok(())
}
