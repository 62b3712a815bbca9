// Line sums of eight blocks in lanes. A line sum is a group of lanes; the rows, of eight groups each, are added up, each from the line of its first sample on.
// Kept as clauses: Within, of plain arrays and of parts of them. A struct that borrows the samples, with Within as its ghost field, would be a type for each length and bound:
// 512 samples up to 128, 256 sums of neighbours up to 256, line sums up to 2,048; the clause is one word of whichever of them is passed.
#![tactic(auto)]

ghost use Rattle.std.specs.Prelude.{◌≡◌, ◌+◌, ◌-◌, ◌*◌, ◌≤◌, ◌<◌, length};
ghost use Rattle.arith_sample.specs.Bounds.{Within};
ghost use Rattle.direction_lane_sums.specs.Lines.{neighbour_sums, sums_of, place_of, lane_lines};

// The line of a row's first sample, against that of the row before: the same, the next one, the one before.
#[derive(Clone, Copy)]
pub enum Step {
    Same,
    Next,
    Back,
}

// Sums of neighbours, in four rows: groups of lanes `apart` entries apart, in rows `down` apart, each with the group `next` further on.
// Kept by index: by array::from_fn, k in row k / 64 and group k / 8 % 8, the direction pass took 2.08 times the time.
pub fn pairs(s: &[i16; 512], down: usize, apart: usize, next: usize) -> [i16; 256]
    requires { (3 * down + 7 * apart + next + 8 ≤ 512) × Within s.now 128 }
    ensures { result ≡ neighbour_sums s.now down apart next }
{
    let mut v = [0i16; 256];
    for m in 0..4usize {
        for i in 0..8usize {
            let to = m * 64 + i * 8;
            let a = m * down + i * apart;
            let b = a + next;
            for l in 0..8usize {
                v[to + l] = arith_sample::add(s[a + l], s[b + l]);
            }
        }
    }
    v
}

// Adds a row to as many lines. Kept with an index for the row: `part.iter_mut().zip(row)` takes the same time,
// but its proof was left open at what the part holds once the iterator of pairs has ended.
fn added(part: &mut [i16], row: &[i16])
    requires sides { (length part.old ≡ 64) × (length row.now ≡ 64) }
    requires within { Within part.old 2048 × Within row.now 256 }
    ensures { part.new ≡ sums_of part.old row.now 64 }
{
    for (k, sum) in part.iter_mut().enumerate() {
        *sum = arith_sample::add(*sum, row[k]);
    }
}

// The line at which row i starts.
#[tactic(auto, unfolding(crate::specs::Lines::place_of))]
fn place(i: usize, rows: usize, first: usize, step: Step) -> usize
    requires { (i < rows) × (first + rows ≤ 9) }
    ensures { result ≡ place_of i rows first step }
{
    match step {
        Step::Same => first,
        Step::Next => first + i,
        Step::Back => first + (rows - 1 - i),
    }
}

// Sixteen lines: the rows of z, each from its line on. Kept by index: `place` computes the line of row i from i, so that with chunks_exact(64).take(rows).enumerate()
// the counter would still be there, beside a chunk whose place in z the proof would have to find again.
pub fn lines(z: &[i16], rows: usize, first: usize, step: Step) -> [i16; 128]
    requires { (rows ≤ 8) × (first + rows ≤ 9) × (rows * 64 ≤ length z.now) × Within z.now 256 }
    ensures { result ≡ lane_lines z.now rows first step }
{
    let mut p = [0i16; 128];
    for i in 0..rows {
        let to = place(i, rows, first, step);
        added(&mut p[to * 8..to * 8 + 64], &z[i * 64..i * 64 + 64]);
    }
    p
}
