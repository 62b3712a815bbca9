// Rows stored: the mark is never written.
#![tactic(auto)]

ghost use Rattle.std.specs.Prelude.{◌≡◌, ◌+◌, ◌*◌, ◌≤◌, length};
ghost use Rattle.cdef_spec.specs.Document01.{unmarked, or_else};
ghost use Rattle.cdef_spec.specs.LoopForm.{put_row};
ghost use Rattle.filter_store.specs.Row.{row_tap};

// The value of a sample after v is stored: the mark is never written.
fn keep(old: u16, v: u16) -> u16
    ensures { result ≡ or_else old (unmarked v) }
{
    if v == arith_sample::MARK { old } else { v }
}

// Stores n samples of a row at row r and column x of a destination w wide.
// Kept by index: as in direction_lane_sums::added, by `iter_mut().enumerate()` in a function of its own that takes the part `dst[from..from + n]`, it is as
// fast, but needs a second definition, of the part's entries, and the laws that lead from it to put_row, which is of the whole destination.
// (dst, w) are Kept apart: a struct of the two would be made in filter_block::filter_window for its one call, and only passed on by filter_rows.
pub fn store_row(dst: &mut [u16], w: usize, r: usize, x: usize, n: usize, row: [u16; 8])
    requires { (r * w + (x + n) ≤ length dst.old) × (n ≤ 8) }
    ensures { dst.new ≡ put_row dst.old w (row_tap row x) r x n }
{
    for j in 0..n {
        let k = r * w + (x + j);
        dst[k] = keep(dst[k], row[j]);
    }
}
