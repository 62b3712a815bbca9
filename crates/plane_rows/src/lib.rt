// Rows of eight samples of a block two samples or more inside a plane without marks: their taps straight from the plane.
// The parameters (src, k, t, f, g) stay apart (Kept) because both_at, pri_at and sec_at take different ones of them; filter_rows says why InRange stays a clause.
// AllLow stays a clause (Kept): as a ghost field it would need a second type of plane beside FullPlane, whose samples may be the mark, and plane_taps::load takes lists without it.
// both_at, pri_at and sec_at are Kept beside those of plane_fours::lanes, whose taps are loaded before: as one function each would take up to six closures.
#![tactic(auto)]

ghost use Rattle.std.specs.Prelude.{◌≡◌, ℕ, ◌+◌, ◌*◌, ◌≤◌, ◌<◌, get_or, length};
ghost use Rattle.arith_sample.specs.Sample.{free_of};
ghost use Rattle.arith_sample.specs.Upto.{upto};
ghost use Rattle.filter_rows.specs.Sums.{InRange, pri_at, sec_at, filtered_at};
ghost use Rattle.filter_kernel.specs.Kernel.{kernel_at};
ghost use Rattle.plane_taps.specs.Plain.{AllLow};
ghost use Rattle.plane_taps.specs.Steps.{taps_in};
ghost use Rattle.plane_taps.specs.Reach.{Around};
ghost use Rattle.plane_rows.specs.Rows.{placed, placed_rows, Stored};

use filter_limits::Pair;
use filter_rows::{Strength, Taps};
use plane_taps::load::load;
use plane_taps::plain;
use std::array;

// Sample j of the eight from k on, filtered with both strengths.
fn both_at(src: &[u16], k: usize, j: usize, t: Taps, f: Strength, g: Strength) -> u16
    requires { Around (length src.now) k 8 t × (j < 8) × AllLow src.now × InRange f × InRange g }
    ensures { result ≡ filtered_at src.now (k + j) t f g }
{
    let i = k + j;
    let c = src[i];
    let m = plain::first(load(src, i, t.p0), load(src, i, t.p1), c, f);
    let q0 = load(src, i, t.q0);
    let q1 = load(src, i, t.q1);
    let r0 = load(src, i, t.r0);
    let r1 = load(src, i, t.r1);
    plain::last(m, q0, q1, r0, r1, c, g)
}

// With the primary strength alone.
fn pri_at(src: &[u16], k: usize, j: usize, t: Taps, f: Strength) -> u16
    requires { Around (length src.now) k 8 t × (j < 8) × AllLow src.now × InRange f }
    ensures { result ≡ free_of (get_or src.now (k + j) 0) (pri_at src.now (k + j) t f) }
{
    let i = k + j;
    let c = src[i];
    let s = plain::pri_sum(load(src, i, t.p0), load(src, i, t.p1), c, f);
    arith_sample::raised(c, s)
}

// With the secondary strength alone.
fn sec_at(src: &[u16], k: usize, j: usize, t: Taps, f: Strength) -> u16
    requires { Around (length src.now) k 8 t × (j < 8) × AllLow src.now × InRange f }
    ensures { result ≡ free_of (get_or src.now (k + j) 0) (sec_at src.now (k + j) t f) }
{
    let i = k + j;
    let c = src[i];
    let q0 = load(src, i, t.q0);
    let q1 = load(src, i, t.q1);
    let r0 = load(src, i, t.r0);
    let r1 = load(src, i, t.r1);
    arith_sample::raised(c, plain::sec_sum(q0, q1, r0, r1, c, f))
}

// The filtered row. The taps of a strength 0 are left out.
fn row(src: &[u16], k: usize, t: Taps, f: Strength, g: Strength) -> [u16; 8]
    requires { Around (length src.now) k 8 t × AllLow src.now × InRange f × InRange g }
    ensures { result ≡ upto (λ j. kernel_at src.now (k + j) t f g) 8 }
{
    match (f.s, g.s) {
        (0, 0) => array::from_fn(|j| src[k + j]),
        (0, _) => array::from_fn(|j| sec_at(src, k, j, t, g)),
        (_, 0) => array::from_fn(|j| pri_at(src, k, j, t, f)),
        (_, _) => array::from_fn(|j| both_at(src, k, j, t, f, g)),
    }
}

// Keeps a row among a block's samples, from index `to` on. Kept beside plane_bytes::eights::keep, which widens sixteen bytes.
fn keep(all: &mut [u16; 64], to: usize, row: [u16; 8])
    requires { to ≤ 56 }
    ensures { all.new ≡ placed all.old to row 0 8 }
{
    all[to..to + 8].copy_from_slice(&row);
}

// Stores n rows of a block's samples from index `to` on, once all are computed: stored one by one, planes of 4,096 by 4,096 took longer
// where destination and plane have the same address modulo 4,096 (docs/DECISIONS.md, 77). Kept by index: by copy_from_slice a block took a tenth longer.
// Kept beside plane_fours::store: one function would take the side as a const parameter and samples of any length, with a clause for that length.
pub fn store(dst: &mut [u16], w: usize, to: usize, all: &[u16; 64], n: usize)
    requires { (n ≤ 8) × ((i : ℕ) → i < n → to + i * w + 8 ≤ length dst.old) }
    ensures { dst.new ≡ placed_rows dst.old w to all.now 8 n }
{
    for i in 0..n {
        let at = to + i * w;
        let from = i * 8;
        for j in 0..8usize {
            dst[at + j] = all[from + j];
        }
    }
}

// Filters n rows of eight from index `at` of the plane on into the destination, from index `to` on; both are w wide.
// Kept by index: as `all.chunks_exact_mut(8).take(n).enumerate()` (as fast) the check knows afterwards the length of `all` and no entry.
pub fn rows(
    dst: &mut [u16],
    to: usize,
    src: &[u16],
    w: usize,
    at: usize,
    n: usize,
    dir: usize,
    f: Strength,
    g: Strength,
)
    requires all_low { AllLow src.now × (w ≤ 4096) × (n ≤ 8) × (dir < 8) × InRange f × InRange g }
    requires rows_inside { (i : ℕ) → i < n → Around (length src.now) (at + i * w) 8 (taps_in w dir) × (to + i * w + 8 ≤ length dst.old) }
    ensures { Stored src.now dst.old dst.new w at to (taps_in w dir) f g 8 n }
{
    let t = plane_taps::steps::taps(dir, w, 1);
    let mut all = [0u16; 64];
    for i in 0..n {
        let v = row(src, at + i * w, t, f, g);
        keep(&mut all, i * 8, v);
    }
    store(dst, w, to, &all, n);
}
