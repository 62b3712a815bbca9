// Whole chroma blocks: the squares of twelve trial blocks, whose rows lie one after the other; the original's are packed likewise, once.
// Runs of sixteen samples are the same loop for 4 by 4, 4 by 8, 8 by 4 and 8 by 8.
// Kept as numbers with their bounds: a run begins at k of 64 entries; a type of such numbers would be built in the loop that counts the runs.
#![tactic(auto)]

ghost use Rattle.std.specs.Prelude.{◌≡◌, ℕ, ◌+◌, ◌*◌, ◌≤◌, ◌<◌, get_or, length, take};
ghost use Rattle.cdef_spec.specs.Words.{sum};
ghost use Rattle.cdef_spec.specs.Distance.{squared_difference};
ghost use Rattle.arith_numbers.specs.Packed.{Packed};
ghost use Rattle.arith_sample.specs.Upto.{upto};
ghost use Rattle.distance_sums.specs.Blocks.{Within};
ghost use Rattle.try_packed.specs.Rows.{rows_of, packed_distances};

// The samples of a block of `rows` by `cols` at `start`, with a row pitch, row after row.
// Kept by index: `copy_from_slice` of a row measured 1.01 times the time of trying chroma at 10 bit, and std states the length of a chunk of `chunks_exact_mut` alone, not what is written through it.
// Kept with list, start and pitch as parameters, as in distance_sums; kept beside distance_sums::block_of, as said there.
fn pack(s: &[u16], start: usize, pitch: usize, rows: usize, cols: usize) -> [u16; 64]
    requires { Packed cols rows × ((i : ℕ) → i < rows → start + i * pitch + cols ≤ length s.now) }
    ensures { take (rows * cols) result ≡ rows_of s.now start pitch rows cols }
{
    let mut b = [0u16; 64];
    for i in 0..rows {
        let from = start + i * pitch;
        let to = i * cols;
        for j in 0..4usize {
            b[to + j] = s[from + j];
        }
        if cols == 8 {
            for j in 4..8usize {
                b[to + j] = s[from + j];
            }
        }
    }
    b
}

// The sum of squared differences of 16 samples from k on and those from `from` on.
// Kept by index: of `(0..16)` with `map` and `sum` the check couldn't prove that the sum fits its type, as in distance_sums.
// Kept beside distance_sums::row_squares, whose count is known only when it runs: sixteen is a literal here.
fn run_squares(a: &[u16; 64], k: usize, s: &[u16], from: usize) -> u32
    requires inside { (k + 16 ≤ 64) × (from + 16 ≤ length s.now) }
    requires samples_taken { (j : ℕ) → j < 16 → (get_or a.now (k + j) 0 < 4096) × (get_or s.now (from + j) 0 < 4096) }
    ensures { result ≡ sum 16 (λ j. squared_difference (get_or a.now (k + j) 0) (get_or s.now (from + j) 0)) }
{
    let mut t = 0u32;
    for j in 0..16usize {
        t = t + arith_numbers::square_of(arith_numbers::difference(a[k + j], s[from + j]));
    }
    t
}

// Of n runs. Kept by index: as above.
fn squares_of(a: &[u16; 64], n: usize, s: &[u16], from: usize) -> u32
    requires inside { (n ≤ 4) × ((i : ℕ) → i < n → from + i * 16 + 16 ≤ length s.now) }
    requires samples_taken { (k : ℕ) → k < n * 16 → (get_or a.now k 0 < 4096) × (get_or s.now (from + k) 0 < 4096) }
    ensures { result ≡ sum (n * 16) (λ k. squared_difference (get_or a.now k 0) (get_or s.now (from + k) 0)) }
{
    let mut t = 0u32;
    for i in 0..n {
        t = t + run_squares(a, i * 16, s, from + i * 16);
    }
    t
}

// The squares between a block of the original and the trial blocks.
// Kept by index: of `array::from_fn`, which cost nothing, the check couldn't prove what `squares_of` requires of each trial block.
pub fn packed_distances(
    original: &[u16],
    at: usize,
    pitch: usize,
    blocks: &[u16],
    rows: usize,
    cols: usize,
) -> [u64; 12]
    requires { Packed cols rows × Within original.now at pitch rows cols 4096 × ((t : ℕ) → t < 12 → Within blocks.now (t * 64) cols rows cols 4096) }
    ensures { result ≡ upto (packed_distances original.now at pitch blocks.now rows cols) 12 }
{
    let a = pack(original, at, pitch, rows, cols);
    let n = cols * rows / 16;
    let mut d = [0u64; 12];
    for t in 0..12usize {
        d[t] = squares_of(&a, n, blocks, t * 64) as u64;
    }
    d
}
