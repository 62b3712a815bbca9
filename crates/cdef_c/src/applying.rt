// The calls for applying; bare numbers become a damping here alone.
// Kept as parameters: C passes numbers and lists one by one. Kept as two functions, luma and chroma: `include/cdef.h` has an entry each, with a variance or with subsampling flags.
ghost use Rattle.std.specs.Prelude.{◌≡◌};
ghost use Rattle.cdef_spec.specs.Answers.{number_of};
ghost use Rattle.cdef_spec.specs.Picture.{luma_picture, chroma_picture};
ghost use Rattle.cdef_spec.specs.FrameCalls.{applying_lists_outcome};
ghost use Rattle.arith_damping.specs.Choice.{choice_of};

use crate::{answer, pictures};

// Applying in luma: a primary and a secondary strength per unit. Kept as two lists: C passes them so.
#[unsafe(no_mangle)]
pub extern "C" fn quern_apply_luma(
    dst: &mut [u16],
    snapshot: &[u16],
    width: usize,
    height: usize,
    depth: u8,
    skip: &[u8],
    dirs: &[u8],
    vars: &[u32],
    pris: &[u8],
    secs: &[u8],
    damping: u8,
    unstated: u8,
) -> u32
    ensures code { result ≡ number_of (applying_lists_outcome (luma_picture depth width height skip.now dirs.now vars.now)
        (choice_of damping unstated) snapshot.now pris.now secs.now dst.old).answer }
    ensures dst_after { dst.new ≡ (applying_lists_outcome
        (luma_picture depth width height skip.now dirs.now vars.now) (choice_of damping unstated)
        snapshot.now pris.now secs.now dst.old).plane }
{
    let picture = pictures::luma(depth, width, height, skip, dirs, vars);
    let d = arith_damping::choice_of(damping, unstated);
    answer::number(cdef_lists::apply_units(dst, snapshot, &picture, pris, secs, d))
}

// Applying in a chroma plane: a primary and a secondary strength per unit. Kept as two lists: C passes them so.
#[unsafe(no_mangle)]
pub extern "C" fn quern_apply_chroma(
    dst: &mut [u16],
    snapshot: &[u16],
    width: usize,
    height: usize,
    sx: u8,
    sy: u8,
    depth: u8,
    skip: &[u8],
    dirs: &[u8],
    pris: &[u8],
    secs: &[u8],
    damping: u8,
    unstated: u8,
) -> u32
    ensures code { result ≡ number_of (applying_lists_outcome (chroma_picture depth width height sx sy skip.now dirs.now)
        (choice_of damping unstated) snapshot.now pris.now secs.now dst.old).answer }
    ensures dst_after { dst.new ≡ (applying_lists_outcome (chroma_picture depth width height sx sy skip.now dirs.now)
        (choice_of damping unstated) snapshot.now pris.now secs.now dst.old).plane }
{
    let picture = pictures::chroma(depth, width, height, sx, sy, skip, dirs);
    let d = arith_damping::choice_of(damping, unstated);
    answer::number(cdef_lists::apply_units(dst, snapshot, &picture, pris, secs, d))
}
