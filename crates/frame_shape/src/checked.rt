// A plane of a picture that passed the first questions (RULES, Questions).
ghost use Rattle.cdef_spec.specs.Lent.{picture_in};
ghost use Rattle.frame_shape.specs.Shape.{Shaped, Listed};

use cdef_spec::Picture;

// It passed questions 1 to 3: depth, sides and subsampling flags.
#[derive(Clone, Copy)]
pub struct ShapedPicture<'a> {
    pub picture: Picture<'a>,
    pub ghost shaped: { Shaped (picture_in picture) },
}

// Its lists have their lengths too, and its directions are in their range.
#[derive(Clone, Copy)]
pub struct ListedPicture<'a> {
    pub shaped: ShapedPicture<'a>,
    pub ghost listed: { Listed (picture_in shaped.picture) },
}
