// The direction of an 8 by 8 block and its variance: line sums, costs, the best of them.
// Kept as parameters: plane, x, y and depth, as in direction_levels.
#![tactic(auto)]

ghost use Rattle.std.specs.Prelude.{◌≡◌};
ghost use Rattle.cdef_spec.specs.Document01.{direction_input, block_direction, block_variance};
ghost use Rattle.cdef_spec.specs.Lent.{plane_in_full};
ghost use Rattle.direction_block.specs.Found.{cost_list, CostsFit, found_of};
ghost use Rattle.direction_levels.specs.Levels.{BlockIn};
ghost use Rattle.direction_lines.specs.Lines.{partials_of};

use cdef_spec::Found;
use cdef_spec::full::FullPlane;
use direction_lines::Partials;

// The line sums of the block at (x, y), from its rows (zb) and from its columns (zt), each with eight zeros on either side.
// Row i of such a block begins at 24 * i, its sample j stands at 24 * i + 8 + j. lines(z, first, one, two) adds up to line n, of each row i,
// the entry at first + n + i / 2 * two + i % 2 * one: with steps 23 and 46 that is sample j = n - i, with 24 and 48 j = n,
// with 25 and 50 j = first - 8 + n + i, with 24 and 47 j = n - i / 2, with 24 and 49 j = first - 8 + n + i / 2. So line n has, by row r and column c of the block:
// d0 n = r + c, d1 n = r + c / 2, d2 n = r, d3 n = 3 + r - c / 2, d4 n = 7 + r - c, d5 n = 3 + c - r / 2, d6 n = c, d7 n = c + r / 2 (7.15.2).
pub fn cdef_direction_partials(plane: &FullPlane<'_>, x: usize, y: usize, depth: u8) -> Partials
    requires { BlockIn (plane_in_full plane.now) depth y x }
    ensures { result ≡ partials_of (direction_input (plane_in_full plane.now) depth y x) }
{
    let b = direction_levels::levels(plane, x, y, depth);
    let t = direction_lines::turned(&b);
    let zb = direction_lines::padded(&b);
    let zt = direction_lines::padded(&t);
    Partials {
        d0: direction_lines::lines(&zb, 8, 23, 46),
        d1: direction_lines::lines(&zt, 8, 24, 47),
        d2: direction_lines::lines(&zt, 8, 24, 48),
        d3: direction_lines::lines(&zt, 5, 24, 49),
        d4: direction_lines::lines(&zt, 1, 25, 50),
        d5: direction_lines::lines(&zb, 5, 24, 49),
        d6: direction_lines::lines(&zb, 8, 24, 48),
        d7: direction_lines::lines(&zb, 8, 24, 47),
    }
}

// The costs of the eight directions.
pub fn costs(p: Partials) -> [u32; 8]
    requires { CostsFit p }
    ensures { result ≡ cost_list p }
{
    [
        direction_costs::cost_diagonal(&p.d0),
        direction_costs::cost_between(&p.d1),
        direction_costs::cost_straight(&p.d2),
        direction_costs::cost_between(&p.d3),
        direction_costs::cost_diagonal(&p.d4),
        direction_costs::cost_between(&p.d5),
        direction_costs::cost_straight(&p.d6),
        direction_costs::cost_between(&p.d7),
    ]
}

// The best direction and its variance, by the line sums.
pub fn cdef_direction_cost(p: Partials) -> Found
    requires { CostsFit p }
    ensures { result ≡ found_of p }
{
    direction_best::best(&costs(p))
}

// The direction and the variance of the block at (x, y); beyond the plane's right or bottom edge, the nearest sample is used.
pub fn cdef_direction(plane: &FullPlane<'_>, x: usize, y: usize, depth: u8) -> Found
    requires { BlockIn (plane_in_full plane.now) depth y x }
    ensures direction_value { result.direction ≡ block_direction (plane_in_full plane.now) depth y x }
    ensures variance_value { result.variance ≡ block_variance (plane_in_full plane.now) depth y x }
{
    cdef_direction_cost(cdef_direction_partials(plane, x, y, depth))
}
