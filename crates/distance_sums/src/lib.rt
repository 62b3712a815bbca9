// Sums over blocks: of samples, of squared differences.
// Kept with the facts in each contract: 64 samples below a bound are an array that `block_of` returns, and a struct round it would be taken apart at each sum.
// Kept with list, start and pitch as parameters: `Within` of a list takes rows, columns and a bound besides, so that a struct of the three with it
// would hold those too, and of the two structs that `squares` takes it would have to be asked that rows and columns are the same.
#![tactic(auto)]

ghost use Rattle.std.specs.Prelude.{◌≡◌, ℕ, ◌+◌, ◌*◌, ◌≤◌, ◌<◌, get_or, length};
ghost use Rattle.cdef_spec.specs.Words.{sum};
ghost use Rattle.cdef_spec.specs.Distance.{squared_difference, squares as squares_of};
ghost use Rattle.distance_sums.specs.Blocks.{at, block_of, Below, Within};

use std::array;

// The 64 samples of the 8 by 8 block at `start`, with a row pitch.
// Kept by index: `array::from_fn` measured 1.46 times the time of trying luma, `copy_from_slice` by rows 1.25 times that of squares. Loops over
// `chunks_exact_mut` cost nothing, but std states the length of a chunk alone, not what is written through it, so that what is ensured could not be proved.
// Kept beside try_packed::pack: this one writes 64 samples by two literal counts, that one rows by columns of a size known only when it runs.
pub fn block_of(s: &[u16], start: usize, pitch: usize) -> [u16; 64]
    requires { (i : ℕ) → i < 8 → start + i * pitch + 8 ≤ length s.now }
    ensures { result ≡ block_of s.now start pitch }
{
    let mut b = [0u16; 64];
    for i in 0..8usize {
        let from = start + i * pitch;
        let to = i * 8;
        for j in 0..8usize {
            b[to + j] = s[from + j];
        }
    }
    b
}

// The sum of 64 samples, by columns first: eight samples are below 2^15. One sum of all 64 measured 1.07 times the time of trying luma, 1.1 of measuring.
// Kept by index: of the same sums as `(0..8).map(..).sum()` in `array::from_fn` the check couldn't prove that each fits its type.
pub fn total(a: &[u16; 64]) -> u32
    requires { Below a.now 4096 }
    ensures { result ≡ sum 64 (λ k. get_or a.now k 0) }
{
    let mut col = [0u16; 8];
    for i in 0..8usize {
        let at = i * 8;
        for j in 0..8usize {
            col[j] = col[j] + a[at + j];
        }
    }
    let mut t = 0u32;
    for c in col {
        t = t + c as u32;
    }
    t
}

// The sum of squared differences of 64 samples and 64 others: the differences first, then their squares in pairs, each of which is one instruction's.
// Kept by index where pairs are added: of `iter().map(..).sum()` the check couldn't prove that the sum fits; both zipped in one chain measured 1.12 times the time.
pub fn block_squares(a: &[u16; 64], b: &[u16; 64]) -> u32
    requires { Below a.now 4096 × Below b.now 4096 }
    ensures { result ≡ sum 64 (λ k. squared_difference (get_or a.now k 0) (get_or b.now k 0)) }
{
    let v: [i16; 64] = array::from_fn(|k| arith_numbers::difference(a[k], b[k]));
    let mut t = 0u32;
    for k in 0..32usize {
        t = t + (arith_numbers::square_of(v[2 * k]) + arith_numbers::square_of(v[2 * k + 1]));
    }
    t
}

// The sum of squared differences of n samples and n others.
// Kept by index: of `zip` or `(0..n)` with `map` and `sum`, which cost nothing, the check couldn't prove that the sum fits its type.
// Kept beside try_packed::run_squares: n is at most 8 and known only when it runs, the sixteen of that one are a literal.
fn row_squares(o: &[u16], from: usize, d: &[u16], to: usize, n: usize) -> u32
    requires inside { (from + n ≤ length o.now) × (to + n ≤ length d.now) × (n ≤ 8) }
    requires samples_taken { (j : ℕ) → j < n → (get_or o.now (from + j) 0 < 4096) × (get_or d.now (to + j) 0 < 4096) }
    ensures { result ≡ sum n (λ j. squared_difference (get_or o.now (from + j) 0) (get_or d.now (to + j) 0)) }
{
    let mut t = 0u32;
    for j in 0..n {
        t = t + arith_numbers::squared_difference(o[from + j], d[to + j]);
    }
    t
}

// The sum of squared differences of two blocks, each at a start and with a row pitch of its own.
// Kept by index: of `(0..rows)` with `map` and `sum` the check couldn't prove what `row_squares` requires of each row, nor that the sum fits.
pub fn squares(
    o: &[u16],
    from: usize,
    pitch: usize,
    d: &[u16],
    to: usize,
    step: usize,
    rows: usize,
    cols: usize,
) -> u32
    requires { (rows ≤ 8) × (cols ≤ 8) × Within o.now from pitch rows cols 4096 × Within d.now to step rows cols 4096 }
    ensures { result ≡ squares_of rows cols (at o.now from pitch) (at d.now to step) }
{
    let mut t = 0u32;
    for i in 0..rows {
        t = t + row_squares(o, from + i * pitch, d, to + i * step, cols);
    }
    t
}
