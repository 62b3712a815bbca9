// Line sums: the rows of a block are padded with zeros, and each line is the sum of eight shifted rows.
// Kept as clauses: Within is one word of a plain array; a struct around the array with that one ghost field would be taken apart at each sample read.
#![tactic(auto)]

ghost use Rattle.std.specs.Prelude.{◌≡◌, ◌+◌, ◌*◌, ◌≤◌, ◌<◌};
ghost use Rattle.arith_sample.specs.Bounds.{Within};
ghost use Rattle.direction_lines.specs.Lines.{turned_of, pad_at, padded_of, pair_at, line_at, lines_of};

use std::array;

// The line sums of the eight directions; past a direction's last line they are 0.
// Kept as eight fields, not an array of eight: no loop runs over them, since each direction has its own cost, and each is named once where it is made and once where it is read.
#[derive(Drop)]
pub struct Partials {
    pub d0: [i16; 16],
    pub d1: [i16; 16],
    pub d2: [i16; 16],
    pub d3: [i16; 16],
    pub d4: [i16; 16],
    pub d5: [i16; 16],
    pub d6: [i16; 16],
    pub d7: [i16; 16],
}

// The transposed block. Kept by index: by array::from_fn, k at column k / 8 of row k % 8, a block took 1.33 times the time.
pub fn turned(b: &[i16; 64]) -> [i16; 64]
    requires { Within b.now 128 }
    ensures { result ≡ turned_of b.now }
{
    let mut t = [0i16; 64];
    for i in 0..8usize {
        let to = i * 8;
        for j in 0..8usize {
            let at = j * 8 + i;
            t[to + j] = b[at];
        }
    }
    t
}

// Row i with eight zeros on each side, at j.
fn pad(b: &[i16; 64], i: usize, j: usize) -> i16
    requires { (i < 8) × (j < 24) × Within b.now 128 }
    ensures { result ≡ pad_at b.now i j }
{
    if j < 8 {
        return 0;
    }
    if 16 <= j {
        return 0;
    }
    let at = i * 8 + (j - 8);
    b[at]
}

// All eight rows. Kept by index: by array::from_fn, k in row k / 24, a block took 6.3 times the time; by chunks_exact(8) and copy_from_slice
// it is as fast, but the proof stayed open at what chunk i holds: that it is row i of b.
pub fn padded(b: &[i16; 64]) -> [i16; 192]
    requires { Within b.now 128 }
    ensures { result ≡ padded_of b.now }
{
    let mut z = [0i16; 192];
    for i in 0..8usize {
        let to = i * 24;
        for j in 0..24usize {
            z[to + j] = pad(b, i, j);
        }
    }
    z
}

// Two rows: one at k, the next `one` entries on.
fn pair(z: &[i16; 192], k: usize, one: usize) -> i16
    requires { (k + one < 192) × Within z.now 128 }
    ensures { result ≡ pair_at z.now k one }
{
    let l = k + one;
    arith_sample::add(z[k], z[l])
}

// Eight rows: four pairs, each `two` entries on.
fn line(z: &[i16; 192], k: usize, one: usize, two: usize) -> i16
    requires { (k + 3 * two + one < 192) × Within z.now 128 }
    ensures { result ≡ line_at z.now k one two }
{
    let a = arith_sample::add(pair(z, k, one), pair(z, k + two, one));
    let b = arith_sample::add(pair(z, k + 2 * two, one), pair(z, k + 3 * two, one));
    arith_sample::add(a, b)
}

// Sixteen lines, from `first` on.
pub fn lines(z: &[i16; 192], first: usize, one: usize, two: usize) -> [i16; 16]
    requires { (first + 3 * two + one ≤ 176) × Within z.now 128 }
    ensures { result ≡ lines_of z.now first one two }
{
    array::from_fn(|n| line(z, first + n, one, two))
}
