// The taps of a direction as offsets, computed without a jump: rows are w entries apart and columns p, in a plane 1.
// Kept as three numbers with their bounds: a direction, and a pitch that is the plane's width, the window's or the strips'; two lines read each once.
ghost use Rattle.std.specs.Prelude.{◌≡◌, ◌<◌, ◌≤◌, if◌then◌else◌};
ghost use Rattle.plane_taps.specs.Steps.{step_by, taps_by};

use filter_rows::Taps;

// The near step: rows -1, 0, 0, 0, 1, 1, 1, 1 and columns 1, 1, 1, 1, 1, 0, 0, 0.
fn near(dir: usize, w: usize, p: usize) -> usize
    requires { (dir < 8) × (w ≤ 4096) × (p ≤ 4096) }
    ensures { result ≡ step_by w p dir 0 }
{
    let row = (1 <= dir) as usize + (4 <= dir) as usize;
    let col = (dir <= 4) as usize;
    (row * w + col * p).wrapping_sub(w)
}

// The far step: rows -2, -1, 0, 1, 2, 2, 2, 2 and columns 2, 2, 2, 2, 2, 1, 0, -1.
fn far(dir: usize, w: usize, p: usize) -> usize
    requires { (dir < 8) × (w ≤ 4096) × (p ≤ 4096) }
    ensures { result ≡ step_by w p dir 1 }
{
    let row = dir.min(4);
    (row * w + (4 + row - dir) * p).wrapping_sub(2 * w + 2 * p)
}

// The offsets of a direction, of the one 2 further and of the one 6 further.
pub fn taps(dir: usize, w: usize, p: usize) -> Taps
    requires { (dir < 8) × (w ≤ 4096) × (p ≤ 4096) }
    ensures { result ≡ taps_by w p dir }
{
    let q = (dir + 2) % 8;
    let r = (dir + 6) % 8;
    Taps {
        p0: near(dir, w, p),
        p1: far(dir, w, p),
        q0: near(q, w, p),
        q1: far(q, w, p),
        r0: near(r, w, p),
        r1: far(r, w, p),
    }
}
