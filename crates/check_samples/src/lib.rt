// Question 9: whether the samples examined are below 2^depth; in a window also the mark.
// Kept as a clause, depth ≤ 12, and plane, x and y as parameters: as in check_lists; a block's corner comes from the caller number by number.
#![tactic(auto)]

ghost use Rattle.std.specs.Prelude.{◌≡◌, [], ◌∷◌, ◌+◌, ◌^◌, ◌≤◌, ◌<◌, eqb, get_or, length};
ghost use Rattle.std.specs.List.{fold};
ghost use Rattle.std.specs.Int.Bits.{bit_or};
ghost use Rattle.cdef_spec.specs.Words.{every};
ghost use Rattle.cdef_spec.specs.Lent.{plane_in_full};
ghost use Rattle.cdef_spec.specs.Answers.{code_of};
ghost use Rattle.cdef_spec.specs.Questions.{ask, first_no, cut_taken, sample_or_mark};
ghost use Rattle.check_samples.specs.Looked.{or_row, or_rows};

use arith_sample::MARK;
use cdef_spec::Refusal;
use cdef_spec::full::FullPlane;

// The bits that are set in any of the samples.
pub fn bits_of(samples: &[u16]) -> u16
    ensures { result ≡ fold bit_or 0 samples.now }
{
    samples.iter().fold(0, |bits, v| bits | *v)
}

// The bits that are set in any of rows by cols samples, from row y and column x on.
// Kept by index: the rows as chunks of the plane's width divide its length by the width, which measured 1.05 times the time of a direction, 1.11 of a distance and 1.39 of squares.
#[tactic(auto, using(crate::specs::LookedLaws::rows_none, crate::specs::LookedLaws::rows_more))]
fn block_bits(plane: &FullPlane<'_>, x: usize, y: usize, rows: usize, cols: usize) -> u16
    requires { (y + rows ≤ plane.now.height) × (x + cols ≤ plane.now.width) }
    ensures { result ≡ or_rows plane.now.samples.now plane.now.width y x cols rows }
{
    let mut bits = 0;
    for i in 0..rows {
        let at = (y + i) * plane.width + x;
        bits |= bits_of(&plane.samples[at..at + cols]);
    }
    bits
}

// The 8 by 8 block at (x, y), cropped to the plane. A whole block passes its sides as constants, so that the compiler unrolls the loops.
pub fn cut_taken(plane: &FullPlane<'_>, x: usize, y: usize, depth: u8) -> bool
    requires corner_in { (x < plane.now.width) × (y < plane.now.height) }
    requires depth_in { depth ≤ 12 }
    ensures { result ≡ cut_taken (plane_in_full plane.now) depth y x }
{
    let cols = 8.min(plane.width - x);
    let rows = 8.min(plane.height - y);
    let bits = if rows + cols < 16 {
        block_bits(plane, x, y, rows, cols)
    } else {
        block_bits(plane, x, y, 8, 8)
    };
    bits >> depth == 0
}

// Whether each entry is a sample of the depth or the mark.
pub fn window_taken(w: &[u16; 144], depth: u8) -> bool
    requires { depth ≤ 12 }
    ensures { result ≡ every 144 (λ k. sample_or_mark depth (get_or w.now k 0)) }
{
    let top = 1u16 << depth;
    w.iter()
        .fold(true, |taken, v| taken & (*v < top || *v == MARK))
}

// The same as an answer, for the block filter and the trial, on the gathered window: its entries are the examined samples, and marks.
#[tactic(auto, unfolding(cdef_spec::specs::Answers::code_of, cdef_spec::specs::Answers::error_code, cdef_spec::specs::Questions::first_no))]
pub fn window_no(win: &[u16; 144], depth: u8) -> Result<(), Refusal>
    requires { depth ≤ 12 }
    ensures { code_of result ≡ first_no (ask 9 (every 144 (λ k. sample_or_mark depth (get_or win.now k 0))) ∷ []) }
{
    if window_taken(win, depth) {
        return Ok(());
    }
    Err(Refusal::Samples)
}
