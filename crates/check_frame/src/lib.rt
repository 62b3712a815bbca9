// The checks of trying, measuring and applying, in order. Where all pass, what the core is given; otherwise the first refusal.
// All input is examined before anything is written, and no list is walked before the questions that come first have passed.
#![tactic(auto)]

ghost use Rattle.std.specs.Prelude.{◌≡◌, true, [], ◌∷◌, ◌*◌, length, IfOk};
ghost use Rattle.cdef_spec.specs.Answers.{code_of};
ghost use Rattle.cdef_spec.specs.Document01.{in_force};
ghost use Rattle.cdef_spec.specs.Lent.{picture_in, plane_in_full};
ghost use Rattle.cdef_spec.specs.Picture.{plane_width, plane_height, plane_of};
ghost use Rattle.cdef_spec.specs.Questions.{first_no, visible_taken, picture_listed};
ghost use Rattle.cdef_spec.specs.FrameCalls.{trying_no, measuring_no};
ghost use Rattle.cdef_pairs.specs.Applying.{applying_by_no};
ghost use Rattle.frame_shape.specs.Checked.{shaped_in};
ghost use Rattle.check_picture.specs.Parts.{lists_next, after_lists};
ghost use Rattle.check_frame.specs.Made.{FilterMade, CompareMade};

use cdef_pairs::Pairs;
use cdef_spec::full::FullPlane;
use cdef_spec::{Picture, Refusal, SignalledDamping, UnitPair, Visible};
use frame_shape::checked::ShapedPicture;
use frame_shape::inputs::{CompareInput, FilterInput};

// A plane of a picture, of the length that question 4 asks.
#[tactic(auto, unfolding(cdef_spec::specs::Lent::plane_in_full))]
fn full_plane<'a>(shaped: &ShapedPicture<'_>, samples: &'a [u16]) -> FullPlane<'a>
    requires { length samples.now ≡ plane_width (shaped_in shaped.now) * plane_height (shaped_in shaped.now) }
    ensures { plane_in_full result ≡ plane_of (shaped_in shaped.now) samples.now }
{
    FullPlane {
        samples,
        width: shaped.plane_width(),
        height: shaped.plane_height(),
    }
}

// Trying and measuring: 8 of the picture, and 9, where the questions before them have passed.
fn comparing<'a>(
    shaped: &ShapedPicture<'a>,
    damping: Option<SignalledDamping>,
    visible: Visible,
    plane: &'a [u16],
    original: &'a [u16],
) -> Result<CompareInput<'a>, Refusal>
    requires lists { first_no (lists_next (shaped_in shaped.now) (plane.now ∷ original.now ∷ [])) ≡ 0 }
    requires visible { visible_taken (shaped_in shaped.now) visible ≡ true }
    ensures refusal { code_of result ≡ first_no (after_lists (shaped_in shaped.now) (in_force damping)
        (plane.now ∷ original.now ∷ [])) }
    ensures input { IfOk result (CompareMade (shaped_in shaped.now) (in_force damping) visible plane.now original.now) }
{
    let damping = arith_damping::in_force(damping);
    let listed = check_picture::values(shaped, damping)?;
    check_picture::plane(plane, shaped.picture.depth)?;
    check_picture::plane(original, shaped.picture.depth)?;
    let plane = full_plane(shaped, plane);
    let original = full_plane(shaped, original);
    let filter = FilterInput {
        listed,
        plane,
        damping,
    };
    Ok(CompareInput {
        filter,
        original,
        visible,
    })
}

// Trying: the snapshot, the original and twelve totals per unit.
pub fn trying<'a>(
    picture: &Picture<'a>,
    damping: Option<SignalledDamping>,
    visible: Visible,
    snapshot: &'a [u16],
    original: &'a [u16],
    totals: &[i64],
) -> Result<CompareInput<'a>, Refusal>
    ensures refusal { code_of result ≡ trying_no (picture_in picture.now) damping visible snapshot.now original.now
        totals.now }
    ensures input { IfOk result (CompareMade (picture_in picture.now) (in_force damping) visible snapshot.now original.now) }
{
    let shaped = check_picture::shape(picture)?;
    check_picture::lists(&shaped, snapshot, original)?;
    let sizes = totals.len() == 12 * shaped.units();
    if !(sizes && check_picture::visible_taken(picture, visible)) {
        return Err(Refusal::Lengths);
    }
    comparing(&shaped, damping, visible, snapshot, original)
}

// Measuring: a plane, the original, one pair, one total per unit, and the scratch, plane width * block height numbers.
pub fn measuring<'a>(
    picture: &Picture<'a>,
    damping: Option<SignalledDamping>,
    visible: Visible,
    plane: &'a [u16],
    original: &'a [u16],
    pair: UnitPair,
    totals: &[i64],
    scratch: &[u16],
) -> Result<CompareInput<'a>, Refusal>
    ensures refusal { code_of result ≡ measuring_no (picture_in picture.now) damping visible plane.now original.now pair
        totals.now scratch.now }
    ensures input { IfOk result (CompareMade (picture_in picture.now) (in_force damping) visible plane.now original.now) }
{
    let shaped = check_picture::shape(picture)?;
    check_picture::lists(&shaped, plane, original)?;
    let height = shaped.block_of(0, 0).height;
    let room = shaped.plane_width() * height;
    let sizes = totals.len() == shaped.units() && scratch.len() == room;
    if !(sizes && check_picture::visible_taken(picture, visible)) {
        return Err(Refusal::Lengths);
    }
    if !check_values::pair_taken(pair) {
        return Err(Refusal::Values);
    }
    comparing(&shaped, damping, visible, plane, original)
}

// Applying: 8 of the picture, and 9, where the questions before them have passed.
fn filtering<'a>(
    shaped: &ShapedPicture<'a>,
    damping: Option<SignalledDamping>,
    snapshot: &'a [u16],
) -> Result<FilterInput<'a>, Refusal>
    requires listed { picture_listed (shaped_in shaped.now) ≡ true }
    requires full { length snapshot.now ≡ plane_width (shaped_in shaped.now) * plane_height (shaped_in shaped.now) }
    ensures refusal { code_of result ≡ first_no (after_lists (shaped_in shaped.now) (in_force damping) (snapshot.now ∷ [])) }
    ensures input { IfOk result (FilterMade (shaped_in shaped.now) (in_force damping) snapshot.now) }
{
    let damping = arith_damping::in_force(damping);
    let listed = check_picture::values(shaped, damping)?;
    check_picture::plane(snapshot, shaped.picture.depth)?;
    let plane = full_plane(shaped, snapshot);
    Ok(FilterInput {
        listed,
        plane,
        damping,
    })
}

// Applying: the snapshot, the destination, whose length is checked and whose contents are not examined, and a pair per unit. The pairs are read only once there is one for each unit.
pub fn applying<'a, P: Pairs>(
    picture: &Picture<'a>,
    damping: Option<SignalledDamping>,
    snapshot: &'a [u16],
    dst: &[u16],
    pairs: &P,
) -> Result<FilterInput<'a>, Refusal>
    ensures refusal { code_of result ≡ applying_by_no (picture_in picture.now) damping snapshot.now (P.listed pairs.now)
        (P.taken pairs.now) dst.now }
    ensures input { IfOk result (FilterMade (picture_in picture.now) (in_force damping) snapshot.now) }
{
    let shaped = check_picture::shape(picture)?;
    check_picture::lists(&shaped, snapshot, dst)?;
    if !pairs.is_listed(shaped.units()) {
        return Err(Refusal::Lengths);
    }
    if !pairs.are_taken() {
        return Err(Refusal::Values);
    }
    filtering(&shaped, damping, snapshot)
}
