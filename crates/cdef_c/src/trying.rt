// The calls for trying; bare numbers become a visible size and a damping here alone.
// Kept as parameters: C passes numbers and lists one by one. Kept as two functions, luma and chroma: `include/cdef.h` has an entry each, with a variance or with subsampling flags.
ghost use Rattle.std.specs.Prelude.{◌≡◌};
ghost use Rattle.cdef_spec.specs.Answers.{number_of};
ghost use Rattle.cdef_spec.specs.Picture.{luma_picture, chroma_picture};
ghost use Rattle.cdef_spec.specs.FrameCalls.{trying_outcome};
ghost use Rattle.arith_damping.specs.Choice.{choice_of};

use crate::{answer, pictures};
use cdef_spec::Visible;

// Trying in luma: twelve totals per unit.
#[unsafe(no_mangle)]
pub extern "C" fn quern_try_luma(
    totals: &mut [i64],
    snapshot: &[u16],
    original: &[u16],
    width: usize,
    height: usize,
    visible_width: usize,
    visible_height: usize,
    depth: u8,
    skip: &[u8],
    dirs: &[u8],
    vars: &[u32],
    damping: u8,
    unstated: u8,
) -> u32
    ensures code { result ≡ number_of (trying_outcome (luma_picture depth width height skip.now dirs.now vars.now)
        (choice_of damping unstated) (record { width = visible_width; height = visible_height }) snapshot.now original.now
        totals.old).answer }
    ensures totals_after { totals.new ≡ (trying_outcome (luma_picture depth width height skip.now dirs.now vars.now)
        (choice_of damping unstated) (record { width = visible_width; height = visible_height }) snapshot.now original.now
        totals.old).totals }
{
    let visible = Visible {
        width: visible_width,
        height: visible_height,
    };
    let picture = pictures::luma(depth, width, height, skip, dirs, vars);
    let d = arith_damping::choice_of(damping, unstated);
    answer::number(cdef::trying::try_units(totals, snapshot, original, &picture, visible, d))
}

// Trying in a chroma plane: twelve totals per unit.
#[unsafe(no_mangle)]
pub extern "C" fn quern_try_chroma(
    totals: &mut [i64],
    snapshot: &[u16],
    original: &[u16],
    width: usize,
    height: usize,
    sx: u8,
    sy: u8,
    visible_width: usize,
    visible_height: usize,
    depth: u8,
    skip: &[u8],
    dirs: &[u8],
    damping: u8,
    unstated: u8,
) -> u32
    ensures code { result ≡ number_of (trying_outcome (chroma_picture depth width height sx sy skip.now dirs.now)
        (choice_of damping unstated) (record { width = visible_width; height = visible_height }) snapshot.now original.now
        totals.old).answer }
    ensures totals_after { totals.new ≡
        (trying_outcome (chroma_picture depth width height sx sy skip.now dirs.now) (choice_of damping unstated)
        (record { width = visible_width; height = visible_height }) snapshot.now original.now
        totals.old).totals }
{
    let visible = Visible {
        width: visible_width,
        height: visible_height,
    };
    let picture = pictures::chroma(depth, width, height, sx, sy, skip, dirs);
    let d = arith_damping::choice_of(damping, unstated);
    answer::number(cdef::trying::try_units(totals, snapshot, original, &picture, visible, d))
}
