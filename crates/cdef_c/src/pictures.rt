// The picture of a frame call, out of the numbers and lists that C passes.
// Kept as parameters: C passes numbers and lists one by one. Kept as two functions, luma and chroma: each is called by its own entries of `include/cdef.h`.
ghost use Rattle.std.specs.Prelude.{◌≡◌};
ghost use Rattle.cdef_spec.specs.Lent.{picture_in};
ghost use Rattle.cdef_spec.specs.Picture.{luma_picture, chroma_picture};

use cdef_spec::{Picture, PlaneKind};

// Luma, with a variance per block.
#[tactic(auto, unfolding(cdef_spec::specs::Lent::picture_in, cdef_spec::specs::Lent::kind_in))]
pub fn luma<'a>(
    depth: u8,
    width: usize,
    height: usize,
    skip: &'a [u8],
    dirs: &'a [u8],
    vars: &'a [u32],
) -> Picture<'a>
    ensures { picture_in result ≡ luma_picture depth width height skip.now dirs.now vars.now }
{
    Picture {
        kind: PlaneKind::Luma { vars },
        depth,
        width,
        height,
        skip,
        dirs,
    }
}

// A chroma plane, with its subsampling flags.
#[tactic(auto, unfolding(cdef_spec::specs::Lent::picture_in, cdef_spec::specs::Lent::kind_in))]
pub fn chroma<'a>(
    depth: u8,
    width: usize,
    height: usize,
    sx: u8,
    sy: u8,
    skip: &'a [u8],
    dirs: &'a [u8],
) -> Picture<'a>
    ensures { picture_in result ≡ chroma_picture depth width height sx sy skip.now dirs.now }
{
    Picture {
        kind: PlaneKind::Chroma { sx, sy },
        depth,
        width,
        height,
        skip,
        dirs,
    }
}
