// The calls for measuring; bare numbers become a visible size, a pair and a damping here alone.
// Kept as parameters: C passes numbers and lists one by one. Kept as two functions, luma and chroma: `include/cdef.h` has an entry each, with a variance or with subsampling flags.
ghost use Rattle.std.specs.Prelude.{◌≡◌};
ghost use Rattle.cdef_spec.specs.Answers.{number_of};
ghost use Rattle.cdef_spec.specs.Picture.{luma_picture, chroma_picture};
ghost use Rattle.cdef_spec.specs.FrameCalls.{measuring_outcome};
ghost use Rattle.arith_damping.specs.Choice.{choice_of};

use crate::{answer, pictures};
use cdef_spec::{UnitPair, Visible};

// Measuring in luma: one total per unit; the scratch is returned all zero.
#[unsafe(no_mangle)]
pub extern "C" fn quern_measure_luma(
    totals: &mut [i64],
    scratch: &mut [u16],
    plane: &[u16],
    original: &[u16],
    width: usize,
    height: usize,
    visible_width: usize,
    visible_height: usize,
    depth: u8,
    skip: &[u8],
    dirs: &[u8],
    vars: &[u32],
    primary: u8,
    secondary: u8,
    damping: u8,
    unstated: u8,
) -> u32
    ensures code { result ≡ number_of (measuring_outcome (luma_picture depth width height skip.now dirs.now vars.now)
        (choice_of damping unstated) (record { width = visible_width; height = visible_height }) plane.now original.now
        (record { primary = primary; secondary = secondary }) totals.old scratch.old).answer }
    ensures totals_after { totals.new ≡
        (measuring_outcome (luma_picture depth width height skip.now dirs.now vars.now) (choice_of damping unstated)
        (record { width = visible_width; height = visible_height }) plane.now original.now
        (record { primary = primary; secondary = secondary }) totals.old scratch.old).totals }
    ensures scratch_after { scratch.new ≡
        (measuring_outcome (luma_picture depth width height skip.now dirs.now vars.now) (choice_of damping unstated)
        (record { width = visible_width; height = visible_height }) plane.now original.now
        (record { primary = primary; secondary = secondary }) totals.old scratch.old).scratch }
{
    let visible = Visible {
        width: visible_width,
        height: visible_height,
    };
    let pair = UnitPair { primary, secondary };
    let picture = pictures::luma(depth, width, height, skip, dirs, vars);
    let d = arith_damping::choice_of(damping, unstated);
    answer::number(cdef::measuring::measure_units(
        totals, scratch, plane, original, &picture, visible, pair, d,
    ))
}

// Measuring in a chroma plane: one total per unit; the scratch is returned all zero.
#[unsafe(no_mangle)]
pub extern "C" fn quern_measure_chroma(
    totals: &mut [i64],
    scratch: &mut [u16],
    plane: &[u16],
    original: &[u16],
    width: usize,
    height: usize,
    sx: u8,
    sy: u8,
    visible_width: usize,
    visible_height: usize,
    depth: u8,
    skip: &[u8],
    dirs: &[u8],
    primary: u8,
    secondary: u8,
    damping: u8,
    unstated: u8,
) -> u32
    ensures code { result ≡ number_of (measuring_outcome (chroma_picture depth width height sx sy skip.now dirs.now)
        (choice_of damping unstated) (record { width = visible_width; height = visible_height }) plane.now original.now
        (record { primary = primary; secondary = secondary }) totals.old scratch.old).answer }
    ensures totals_after { totals.new ≡
        (measuring_outcome (chroma_picture depth width height sx sy skip.now dirs.now) (choice_of damping unstated)
        (record { width = visible_width; height = visible_height }) plane.now original.now
        (record { primary = primary; secondary = secondary }) totals.old scratch.old).totals }
    ensures scratch_after { scratch.new ≡
        (measuring_outcome (chroma_picture depth width height sx sy skip.now dirs.now) (choice_of damping unstated)
        (record { width = visible_width; height = visible_height }) plane.now original.now
        (record { primary = primary; secondary = secondary }) totals.old scratch.old).scratch }
{
    let visible = Visible {
        width: visible_width,
        height: visible_height,
    };
    let pair = UnitPair { primary, secondary };
    let picture = pictures::chroma(depth, width, height, sx, sy, skip, dirs);
    let d = arith_damping::choice_of(damping, unstated);
    answer::number(cdef::measuring::measure_units(
        totals, scratch, plane, original, &picture, visible, pair, d,
    ))
}
