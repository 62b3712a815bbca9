// Measuring: per unit the total of distances between the original and a plane, filtered with one pair or, with 0, 0, unfiltered.
// Kept as parameters: as in applying.rt.
ghost use Rattle.std.specs.Prelude.{◌≡◌};
ghost use Rattle.cdef_spec.specs.Answers.{read_done};
ghost use Rattle.cdef_spec.specs.Lent.{picture_in};
ghost use Rattle.cdef_spec.specs.FrameCalls.{measuring_outcome};

use cdef_spec::{Picture, Refusal, SignalledDamping, UnitPair, Visible};
use frame_shape::params::TakenPair;

// Measuring in a plane of a picture. The scratch, plane width * block height numbers, is returned all zero.
pub fn measure_units(
    totals: &mut [i64],
    scratch: &mut [u16],
    plane: &[u16],
    original: &[u16],
    picture: &Picture<'_>,
    visible: Visible,
    pair: UnitPair,
    damping: Option<SignalledDamping>,
) -> Result<(), Refusal>
    ensures { measuring_outcome (picture_in picture.now) damping visible plane.now original.now pair totals.old scratch.old
        ≡ record { answer = read_done result; totals = totals.new; scratch = scratch.new } }
{
    let input = check_frame::measuring(
        picture, damping, visible, plane, original, pair, totals, scratch,
    )?;
    measure_plane::measure_plane(totals, scratch, &input, TakenPair { pair });
    Ok(())
}
