// The test of a block's place.
#![tactic(auto)]

ghost use Rattle.std.specs.Prelude.{◌≡◌, ◌≤◌};
ghost use Rattle.plane_inside.specs.Inner.{inner_block};

// Whether a block lies two samples or more inside a plane w by h.
// Kept as tests one by one: as one `&&` (proved) applying chroma took 1.07 times, measuring it 1.12 times as long; as a struct a block goes through memory
// (plane_block::filter_inside).
pub fn inside(w: usize, h: usize, x: usize, y: usize, bw: usize, bh: usize) -> bool
    requires { (x ≤ 4096) × (y ≤ 4096) × (bw ≤ 8) × (bh ≤ 8) }
    ensures { result ≡ inner_block w h x y bw bh }
{
    if x < 2 {
        return false;
    }
    if y < 2 {
        return false;
    }
    if w < x + bw + 2 {
        return false;
    }
    y + bh + 2 <= h
}
