// The parameters of a filtered row of the window, and the filtered row.
// The parameters of kernel_row stay apart, their bounds clauses (Kept): filter_rows says why. A damping is a number of at most 31 (Kept) in three functions:
// a type with that ghost field would be one more beside WorkingDamping, whose 0 counts as 1 here.
#![tactic(auto)]

ghost use Rattle.std.specs.Prelude.{◌≡◌, ◌+◌, ◌≤◌, ◌<◌, max, get_or};
ghost use Rattle.arith_sample.specs.Bounds.{Held};
ghost use Rattle.arith_sample.specs.Upto.{upto};
ghost use Rattle.filter_rows.specs.Sums.{Near6, InRange};
ghost use Rattle.filter_kernel.specs.Kernel.{taps_of, shift_of, pri_of, sec_of, kernel_at};

use cdef_spec::WorkingDamping;
use filter_rows::{Strength, Taps};

// The offsets of a direction, of the one 2 further and of the one 6 further: the window is 12 samples wide.
pub fn taps(dir: usize) -> Taps
    requires { dir < 8 }
    ensures { result ≡ taps_of dir }
{
    plane_taps::steps::taps(dir, 12, 1)
}

// A working damping, where 0 counts as 1.
pub fn from_one(damping: WorkingDamping) -> u32
    ensures { result ≡ max 1 damping.0 }
{
    (damping.0 as u32).max(1)
}

// The shift of a strength, capped at 15.
fn shift_of(s: u16, damping: u32) -> u32
    requires { damping ≤ 31 }
    ensures { result ≡ shift_of s damping }
{
    damping
        .saturating_sub(arith_strength::log2_floor(s as u32))
        .min(15)
}

// A primary strength with its shift and its weights, 4, 2 or 3, 3.
pub fn primary(s: u16, damping: u32, depth: u8) -> Strength
    requires { (damping ≤ 31) × (8 ≤ depth) × (depth ≤ 12) }
    ensures { result ≡ pri_of s damping depth }
{
    let odd = (s >> (depth - 8)) % 2;
    Strength {
        s,
        sh: shift_of(s, damping),
        w0: 4 - odd,
        w1: 2 + odd,
    }
}

// A secondary strength with its shift and its weights, 2, 1. Kept beside `primary`, whose weights depend on the depth.
pub fn secondary(s: u16, damping: u32) -> Strength
    requires { damping ≤ 31 }
    ensures { result ≡ sec_of s damping }
{
    Strength {
        s,
        sh: shift_of(s, damping),
        w0: 2,
        w1: 1,
    }
}

// The filtered row that starts at `row` of the window. The taps of a strength 0 are left out.
// plane_rows::row and plane_fours::four make the same choice (Kept): one function for the three would take four closures in place of these four arms.
pub fn kernel_row(w: &[u16; 144], row: usize, t: Taps, f: Strength, g: Strength) -> [u16; 8]
    requires { (26 ≤ row) × (row ≤ 110) × Held w.now × Near6 t × InRange f × InRange g }
    ensures { result ≡ upto (λ j. kernel_at w.now (row + j) t f g) 8 }
{
    match (f.s, g.s) {
        (0, 0) => filter_rows::centre_row(w, row),
        (0, _) => filter_rows::alone::sec_row(w, row, t, g),
        (_, 0) => filter_rows::alone::pri_row(w, row, t, f),
        (_, _) => filter_rows::filtered_row(w, row, t, f, g),
    }
}
