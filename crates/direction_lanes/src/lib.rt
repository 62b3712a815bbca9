// The samples of eight blocks side by side, interleaved into groups of eight lanes: in each group, lane l is of block l.
// Kept as parameters: plane, x, y and depth, as in direction_levels; and the two arrays, of which each interleaving writes one and reads the other: in a struct they would be
// borrowed apart at each of the three steps, once in either order.
#![tactic(auto)]

ghost use Rattle.std.specs.Prelude.{◌≡◌, ◌+◌, ◌*◌, ◌≤◌, length};
ghost use Rattle.arith_sample.specs.Bounds.{Within};
ghost use Rattle.cdef_spec.specs.Lent.{plane_in_full};
ghost use Rattle.direction_lanes.specs.Lanes.{EightIn, rows_of, interleaved_of, lanes_of};

use cdef_spec::full::FullPlane;

// The rows of the eight blocks at (x, y): 64 samples each, shifted, less 128.
// Kept beside direction_levels::levels_inside, the same loop over rows of 8: one function of rows of N would fill arrays of 8 * N, a length that a const parameter can't state.
// Kept by index: by array::from_fn, sample k in row k / 64, the direction pass took 2.35 times the time.
fn rows(a: &mut [i16; 512], plane: &FullPlane<'_>, x: usize, y: usize, depth: u8)
    requires { EightIn (plane_in_full plane.now) depth y x }
    ensures { a.new ≡ rows_of (plane_in_full plane.now) depth y x }
{
    let shift = (depth - 8) as u32;
    for i in 0..8usize {
        let at = (y + i) * plane.width + x;
        let to = i * 64;
        for k in 0..64usize {
            a[to + k] = direction_levels::level(plane.samples[at + k], shift);
        }
    }
}

// Each run of eight entries interleaved with the run `half` further on. Runs stand `apart` entries apart, groups of eight runs `row`.
// Kept by index: by array::from_fn, which computes from each place of `out` the place in `a` that it comes from, the direction pass took 3.58 times the time.
fn interleaved(out: &mut [i16; 512], a: &[i16; 512], row: usize, apart: usize, half: usize)
    requires { (3 * row + 7 * apart + half + 8 ≤ 512) × Within a.now 128 }
    ensures { out.new ≡ interleaved_of a.now row apart half }
{
    for m in 0..4usize {
        for i in 0..8usize {
            let to = m * 128 + i * 16;
            let from = m * row + i * apart;
            let next = from + half;
            for j in 0..8usize {
                out[to + 2 * j] = a[from + j];
                out[to + 2 * j + 1] = a[next + j];
            }
        }
    }
}

// The lanes of the eight blocks at (x, y): sample (i, j) of block l at 64 i + 8 j + l. Blocks 0 to 3 are interleaved with blocks 4 to 7, then twice the halves. `a` is overwritten.
pub fn lanes(
    s: &mut [i16; 512],
    a: &mut [i16; 512],
    plane: &FullPlane<'_>,
    x: usize,
    y: usize,
    depth: u8,
)
    requires { EightIn (plane_in_full plane.now) depth y x }
    ensures { s.new ≡ lanes_of (plane_in_full plane.now) depth y x }
{
    rows(a, plane, x, y, depth);
    interleaved(s, a, 8, 64, 32);
    interleaved(a, s, 64, 8, 256);
    interleaved(s, a, 64, 8, 256);
}
