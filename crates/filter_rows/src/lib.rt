// Rows of eight samples of the window, filtered, returned by value.
// Kept as clauses, InRange of a strength and Near6 of taps: as ghost fields they would ask a proof of pri_of, sec_of, pri_in, sec_in and taps_by, which
// name a strength of any numbers and taps of any pitch; taps of a plane (plane_taps) are not Near6. Held of a window likewise: it is any 144 numbers.
// The bounds of a row and of an index (26 ≤ row ≤ 110, 26 ≤ k ≤ 117) are Kept as clauses: a struct with such a ghost field would be made anew for each
// row, and for each sample of it. Window, taps and strengths are Kept apart: a row takes both strengths or one of them, and the sums below take a strength and no taps.
#![tactic(auto)]

pub mod alone; // alone.rt: rows filtered with one strength
pub mod both; // both.rt: one sample, filtered with both strengths

ghost use Rattle.std.specs.Prelude.{◌≡◌, ◌+◌, ◌≤◌, slice_index};
ghost use Rattle.arith_sample.specs.Upto.{upto};
ghost use Rattle.arith_sample.specs.Bounds.{Held};
ghost use Rattle.filter_rows.specs.Sums.{Near6, InRange, filtered_at};

use std::array;

// The offsets of a sample's taps in a list, wrapped; the opposite tap lies as far the other way.
// p in the direction itself, q in the one 2 further, r in the one 6 further; 0 near, 1 far.
#[derive(Clone, Copy)]
pub struct Taps {
    pub p0: usize,
    pub p1: usize,
    pub q0: usize,
    pub q1: usize,
    pub r0: usize,
    pub r1: usize,
}

// A strength, its shift, and the weights of the near and the far taps.
#[derive(Clone, Copy)]
pub struct Strength {
    pub s: u16,
    pub sh: u32,
    pub w0: u16,
    pub w1: u16,
}

// The filtered row that starts at `row` of the window.
pub fn filtered_row(w: &[u16; 144], row: usize, t: Taps, f: Strength, g: Strength) -> [u16; 8]
    requires { (26 ≤ row) × (row ≤ 110) × Held w.now × Near6 t × InRange f × InRange g }
    ensures { result ≡ upto (λ j. filtered_at w.now (row + j) t f g) 8 }
{
    array::from_fn(|j| both::both_at(w, row + j, t, f, g))
}

// A row of the window, unfiltered.
pub fn centre_row(w: &[u16; 144], row: usize) -> [u16; 8]
    requires { (26 ≤ row) × (row ≤ 110) }
    ensures { result ≡ upto (λ j. slice_index w.now (row + j)) 8 }
{
    array::from_fn(|j| w[row + j])
}
