// The questions that the frame calls share, in order: 1, 2 and 3 make a shaped picture; then 4 and 7; then 8, which makes a listed one; then 9.
// Kept as a clause, depth ≤ 12, and the numbers of question 2 as parameters: these are the checks that make the types which say such ranges.
// A list is walked (8, 9) only once its length has passed (4, 7).
#![tactic(auto)]

ghost use Rattle.std.specs.Prelude.{◌≡◌, true, [], ◌∷◌, ◌*◌, ◌≤◌, eqb, length, IfOk};
ghost use Rattle.cdef_spec.specs.Answers.{code_of};
ghost use Rattle.cdef_spec.specs.Lent.{kind_in, picture_in};
ghost use Rattle.cdef_spec.specs.Picture.{plane_width, plane_height};
ghost use Rattle.cdef_spec.specs.Questions.{first_no, flags_taken, picture_listed, variances_listed, visible_taken, variances_taken, picture_taken, all_below};
ghost use Rattle.frame_shape.specs.Checked.{shaped_in, listed_in};
ghost use Rattle.check_picture.specs.Parts.{sides_first, shape_first, lists_next, lists_both, values_next, values_both, samples_last};

use cdef_spec::{Picture, PlaneKind, Refusal, SignalledDamping, Visible};
use frame_shape::checked::{ListedPicture, ShapedPicture};

// 1 and 2: the depth and the sides.
#[tactic(auto, unfolding(cdef_spec::specs::Questions::first_no, cdef_spec::specs::Answers::code_of, cdef_spec::specs::Answers::error_code))]
pub fn sides(depth: u8, width: usize, height: usize) -> Result<(), Refusal>
    ensures { code_of result ≡ first_no (sides_first depth width height) }
{
    if !check_sides::depth_taken(depth) {
        return Err(Refusal::Depth);
    }
    if !check_sides::luma_side_taken(width) || !check_sides::luma_side_taken(height) {
        return Err(Refusal::Sides);
    }
    Ok(())
}

// 3: the subsampling flags of chroma.
#[tactic(auto, unfolding(cdef_spec::specs::Questions::flags_taken, cdef_spec::specs::Lent::kind_in))]
fn flags_taken(kind: &PlaneKind<'_>) -> bool
    ensures { result ≡ flags_taken (kind_in kind.now) }
{
    match kind {
        PlaneKind::Luma { vars: _ } => true,
        PlaneKind::Chroma { sx, sy } => *sx < 2 && *sy < 2,
    }
}

// 1, 2 and 3.
pub fn shape<'a>(picture: &Picture<'a>) -> Result<ShapedPicture<'a>, Refusal>
    ensures refusal { code_of result ≡ first_no (shape_first (picture_in picture.now)) }
    ensures picture { IfOk result (λ s. shaped_in s ≡ picture_in picture.now) }
{
    sides(picture.depth, picture.width, picture.height)?;
    if !flags_taken(&picture.kind) {
        return Err(Refusal::Subsampling);
    }
    Ok(ShapedPicture { picture: *picture })
}

// 4: a plane holds exactly as many samples as its own sides multiply to.
fn is_full(shaped: &ShapedPicture<'_>, plane: &[u16]) -> bool
    ensures { result ≡ eqb (length plane.now) (plane_width (shaped_in shaped.now) * plane_height (shaped_in shaped.now)) }
{
    plane.len() == shaped.plane_width() * shaped.plane_height()
}

// 7: in luma, a variance for each of n blocks.
#[tactic(auto, unfolding(cdef_spec::specs::Questions::variances_listed, cdef_spec::specs::Lent::kind_in))]
fn variances_listed(kind: &PlaneKind<'_>, n: usize) -> bool
    ensures { result ≡ variances_listed (kind_in kind.now) n }
{
    match kind {
        PlaneKind::Luma { vars } => vars.len() == n,
        PlaneKind::Chroma { sx: _, sy: _ } => true,
    }
}

// 7: per block a flag, a direction and, in luma, a variance.
#[tactic(auto, unfolding(cdef_spec::specs::Questions::picture_listed, cdef_spec::specs::Lent::picture_in))]
fn picture_listed(shaped: &ShapedPicture<'_>) -> bool
    ensures { result ≡ picture_listed (shaped_in shaped.now) }
{
    let q = &shaped.picture;
    let n = q.height / 8 * (q.width / 8);
    q.skip.len() == n && q.dirs.len() == n && variances_listed(&q.kind, n)
}

// 7: the visible size is 1 to the luma sides.
#[tactic(auto, unfolding(cdef_spec::specs::Questions::visible_taken, cdef_spec::specs::Lent::picture_in))]
pub fn visible_taken(picture: &Picture<'_>, v: Visible) -> bool
    ensures { result ≡ visible_taken (picture_in picture.now) v }
{
    (1..=picture.width).contains(&v.width) && (1..=picture.height).contains(&v.height)
}

// 4 of two planes, and 7 of the lists per block and of a call's own; own: whether those have their lengths.
#[tactic(auto, unfolding(cdef_spec::specs::Questions::first_no, cdef_spec::specs::Questions::full_planes, cdef_spec::specs::Answers::code_of, cdef_spec::specs::Answers::error_code))]
pub fn lists_no(shaped: &ShapedPicture<'_>, a: &[u16], b: &[u16], own: bool) -> Result<(), Refusal>
    ensures { code_of result ≡ first_no (lists_both (shaped_in shaped.now) (a.now ∷ b.now ∷ []) own) }
{
    if !is_full(shaped, a) || !is_full(shaped, b) {
        return Err(Refusal::PlaneLength);
    }
    if !picture_listed(shaped) || !own {
        return Err(Refusal::Lengths);
    }
    Ok(())
}

// The same of the lists per block alone.
pub fn lists(shaped: &ShapedPicture<'_>, a: &[u16], b: &[u16]) -> Result<(), Refusal>
    ensures { code_of result ≡ first_no (lists_next (shaped_in shaped.now) (a.now ∷ b.now ∷ [])) }
{
    lists_no(shaped, a, b, true)
}

// 8: the variances, which only luma has.
#[tactic(auto, unfolding(cdef_spec::specs::Questions::variances_taken, cdef_spec::specs::Lent::kind_in))]
fn variances_taken(kind: &PlaneKind<'_>) -> bool
    ensures { result ≡ variances_taken (kind_in kind.now) }
{
    match kind {
        PlaneKind::Luma { vars } => {
            check_lists::all_below(vars, &(check_values::VARIANCE_LIMIT + 1))
        }
        PlaneKind::Chroma { sx: _, sy: _ } => true,
    }
}

// Every entry of a list of bytes is below m.
fn bytes_below(list: &[u8], m: u8) -> bool
    ensures { result ≡ all_below m list.now }
{
    check_lists::all_below(list, &m)
}

// 8: flags, directions, variances and the figure in force.
#[tactic(auto, unfolding(cdef_spec::specs::Questions::picture_taken, cdef_spec::specs::Lent::picture_in))]
fn picture_taken(picture: &Picture<'_>, d: SignalledDamping) -> bool
    ensures { result ≡ picture_taken (picture_in picture.now) d }
{
    bytes_below(picture.skip, 2)
        && bytes_below(picture.dirs, 8)
        && variances_taken(&picture.kind)
        && check_values::signalled_taken(d)
}

// 8 of the lists per block, of the figure in force and of a call's own part, whatever the picture's shape and its lists' lengths;
// own: whether that part has passed.
#[tactic(auto, unfolding(cdef_spec::specs::Questions::first_no, cdef_spec::specs::Answers::code_of, cdef_spec::specs::Answers::error_code))]
pub fn values_no(picture: &Picture<'_>, d: SignalledDamping, own: bool) -> Result<(), Refusal>
    ensures { code_of result ≡ first_no (values_both (picture_in picture.now) d own) }
{
    if !picture_taken(picture, d) || !own {
        return Err(Refusal::Values);
    }
    Ok(())
}

// The same of the lists per block and the figure alone where 7 has passed, which makes a listed picture.
pub fn values<'a>(
    shaped: &ShapedPicture<'a>,
    d: SignalledDamping,
) -> Result<ListedPicture<'a>, Refusal>
    requires { picture_listed (shaped_in shaped.now) ≡ true }
    ensures refusal { code_of result ≡ first_no (values_next (shaped_in shaped.now) d) }
    ensures picture { IfOk result (λ q. listed_in q ≡ shaped_in shaped.now) }
{
    values_no(&shaped.picture, d, true)?;
    Ok(ListedPicture { shaped: *shaped })
}

// 9: all samples of a plane.
#[tactic(auto, unfolding(cdef_spec::specs::Questions::first_no, cdef_spec::specs::Questions::all_samples_below, cdef_spec::specs::Answers::code_of, cdef_spec::specs::Answers::error_code))]
pub fn plane(a: &[u16], depth: u8) -> Result<(), Refusal>
    requires { depth ≤ 12 }
    ensures { code_of result ≡ first_no (samples_last depth (a.now ∷ [])) }
{
    if !check_lists::samples_below(a, depth) {
        return Err(Refusal::Samples);
    }
    Ok(())
}
