// Rows filtered with one strength alone. Taps are taken as the window holds them; a marked one counts 0.
// The clauses and the parameters stay as in lib.rt (Kept), whose head says why.
ghost use Rattle.std.specs.Prelude.{◌≡◌, ◌+◌, ◌≤◌, slice_index};
ghost use Rattle.arith_sample.specs.Sample.{free_of};
ghost use Rattle.arith_sample.specs.Upto.{upto};
ghost use Rattle.arith_sample.specs.Bounds.{Held};
ghost use Rattle.filter_limits.specs.Limits.{HeldPairs};
ghost use Rattle.filter_rows.specs.Sums.{Near6, InRange, pri_at, sec_at, alone_at};
ghost use Rattle.filter_rows.specs.Pairs.{alone_sum};

use crate::{Strength, Taps, both};
use filter_limits::Pairs;
use std::array;

// Which of the two strengths. Kept as a const parameter, WHICH: as a closure, sample would be handed both::pri_sum or both::sec_sum by each row.
const PRIMARY: bool = false;

const SECONDARY: bool = true;

// The sum of the taps of the one strength.
fn sum<const WHICH: bool>(e: Pairs, c: u16, f: Strength) -> i16
    requires { HeldPairs e × (c ≤ 16384) × InRange f }
    ensures { result ≡ alone_sum WHICH e c f }
{
    if WHICH {
        both::sec_sum(e, c, f)
    } else {
        both::pri_sum(e, c, f)
    }
}

// The sample at k, filtered with it.
fn sample<const WHICH: bool>(w: &[u16; 144], k: usize, t: Taps, f: Strength) -> u16
    requires { (26 ≤ k) × (k ≤ 117) × Held w.now × Near6 t × InRange f }
    ensures { result ≡ free_of (slice_index w.now k) (alone_at WHICH w.now k t f) }
{
    let c = w[k];
    let e = both::load_pairs(w, k, t);
    arith_sample::free(c, sum::<WHICH>(e, c, f))
}

// The row that starts at `row` of the window, filtered with the primary strength alone.
// Kept as two functions, pri_row and sec_row: as one with a const parameter (tried) its closure stayed unproved, since the check stops at an import that
// it writes itself and does not find.
pub fn pri_row(w: &[u16; 144], row: usize, t: Taps, f: Strength) -> [u16; 8]
    requires { (26 ≤ row) × (row ≤ 110) × Held w.now × Near6 t × InRange f }
    ensures { result ≡ upto (λ j. free_of (slice_index w.now (row + j)) (pri_at w.now (row + j) t f)) 8 }
{
    array::from_fn(|j| sample::<PRIMARY>(w, row + j, t, f))
}

// The row that starts at `row` of the window, filtered with the secondary strength alone.
pub fn sec_row(w: &[u16; 144], row: usize, t: Taps, f: Strength) -> [u16; 8]
    requires { (26 ≤ row) × (row ≤ 110) × Held w.now × Near6 t × InRange f }
    ensures { result ≡ upto (λ j. free_of (slice_index w.now (row + j)) (sec_at w.now (row + j) t f)) 8 }
{
    array::from_fn(|j| sample::<SECONDARY>(w, row + j, t, f))
}
