// Four rows of four samples of a block, sixteen at once, their taps straight from the plane.
// The parameters (src, w, k, t, f, g) stay apart (Kept) because pri and sec take one strength and both takes two; filter_rows says why InRange stays a clause,
// plane_rows why AllLow does.
#![tactic(auto)]

ghost use Rattle.std.specs.Prelude.{◌≡◌, ◌+◌, ◌*◌, ◌<◌, ◌≤◌, length, slice_index};
ghost use Rattle.arith_sample.specs.Sample.{free_of};
ghost use Rattle.arith_sample.specs.Upto.{upto};
ghost use Rattle.filter_rows.specs.Sums.{InRange, pri_at, sec_at, filtered_at};
ghost use Rattle.filter_kernel.specs.Kernel.{kernel_at};
ghost use Rattle.plane_taps.specs.Plain.{AllLow};
ghost use Rattle.plane_taps.specs.Steps.{taps_in};
ghost use Rattle.plane_taps.specs.Reach.{Around};
ghost use Rattle.plane_rows.specs.Rows.{placed_rows, Stored};
ghost use Rattle.plane_fours.specs.Fours.{four_at};

use filter_rows::{Strength, Taps};
use plane_taps::load::{ahead, behind, gather};

mod lanes; // lanes.rt: sixteen samples from their taps

// The sixteen samples, filtered with both strengths.
// Kept beside plane_bytes::eights::both, which loads the same twelve lists in bytes: one function that loads them for both would return a list of lists, each
// then named by its number.
#[tactic(auto, using(crate::specs::RunLaws::wide_four))]
fn both(src: &[u16], w: usize, k: usize, t: Taps, f: Strength, g: Strength) -> [u16; 16]
    requires { Around (length src.now) k (3 * w + 4) t × AllLow src.now × (w ≤ 4096) × InRange f × InRange g }
    ensures { result ≡ upto (λ j. filtered_at src.now (four_at w k j) t f g) 16 }
{
    let c = gather::<4>(src, w, k);
    let a0 = ahead::<4>(src, w, k, t.p0);
    let b0 = behind::<4>(src, w, k, t.p0);
    let a1 = ahead::<4>(src, w, k, t.p1);
    let b1 = behind::<4>(src, w, k, t.p1);
    let a2 = ahead::<4>(src, w, k, t.q0);
    let b2 = behind::<4>(src, w, k, t.q0);
    let a3 = ahead::<4>(src, w, k, t.q1);
    let b3 = behind::<4>(src, w, k, t.q1);
    let a4 = ahead::<4>(src, w, k, t.r0);
    let b4 = behind::<4>(src, w, k, t.r0);
    let a5 = ahead::<4>(src, w, k, t.r1);
    let b5 = behind::<4>(src, w, k, t.r1);
    lanes::both(
        &c, &a0, &b0, &a1, &b1, &a2, &b2, &a3, &b3, &a4, &b4, &a5, &b5, f, g,
    )
}

// With the primary strength alone.
#[tactic(auto, using(crate::specs::RunLaws::wide_four))]
fn pri(src: &[u16], w: usize, k: usize, t: Taps, f: Strength) -> [u16; 16]
    requires { Around (length src.now) k (3 * w + 4) t × AllLow src.now × (w ≤ 4096) × InRange f }
    ensures { result ≡ upto (λ j. free_of (slice_index src.now (four_at w k j)) (pri_at src.now (four_at w k j) t f)) 16 }
{
    let c = gather::<4>(src, w, k);
    let a0 = ahead::<4>(src, w, k, t.p0);
    let b0 = behind::<4>(src, w, k, t.p0);
    let a1 = ahead::<4>(src, w, k, t.p1);
    let b1 = behind::<4>(src, w, k, t.p1);
    lanes::pri(&c, &a0, &b0, &a1, &b1, f)
}

// With the secondary strength alone.
#[tactic(auto, using(crate::specs::RunLaws::wide_four))]
fn sec(src: &[u16], w: usize, k: usize, t: Taps, f: Strength) -> [u16; 16]
    requires { Around (length src.now) k (3 * w + 4) t × AllLow src.now × (w ≤ 4096) × InRange f }
    ensures { result ≡ upto (λ j. free_of (slice_index src.now (four_at w k j)) (sec_at src.now (four_at w k j) t f)) 16 }
{
    let c = gather::<4>(src, w, k);
    let a0 = ahead::<4>(src, w, k, t.q0);
    let b0 = behind::<4>(src, w, k, t.q0);
    let a1 = ahead::<4>(src, w, k, t.q1);
    let b1 = behind::<4>(src, w, k, t.q1);
    let a2 = ahead::<4>(src, w, k, t.r0);
    let b2 = behind::<4>(src, w, k, t.r0);
    let a3 = ahead::<4>(src, w, k, t.r1);
    let b3 = behind::<4>(src, w, k, t.r1);
    lanes::sec(&c, &a0, &b0, &a1, &b1, &a2, &b2, &a3, &b3, f)
}

// The filtered samples. The taps of a strength 0 are left out.
#[tactic(auto, using(crate::specs::RunLaws::wide_four))]
fn four(src: &[u16], w: usize, k: usize, t: Taps, f: Strength, g: Strength) -> [u16; 16]
    requires { Around (length src.now) k (3 * w + 4) t × AllLow src.now × (w ≤ 4096) × InRange f × InRange g }
    ensures { result ≡ upto (λ j. kernel_at src.now (four_at w k j) t f g) 16 }
{
    match (f.s, g.s) {
        (0, 0) => gather::<4>(src, w, k),
        (0, _) => sec(src, w, k, t, g),
        (_, 0) => pri(src, w, k, t, f),
        (_, _) => both(src, w, k, t, f, g),
    }
}

// Stores them from index `to` on. Kept by index: with copy_from_slice in place of the inner loop applying chroma took 1.03 to 1.05 times as long.
fn store(dst: &mut [u16], w: usize, to: usize, v: [u16; 16])
    requires { (to + (3 * w + 4) ≤ length dst.old) × (w ≤ 4096) }
    ensures { dst.new ≡ placed_rows dst.old w to v 4 4 }
{
    for i in 0..4usize {
        let at = to + i * w;
        let from = i * 4;
        for j in 0..4usize {
            dst[at + j] = v[from + j];
        }
    }
}

// Filters four rows of four from index `at` of the plane on into the destination, from index `to` on; both are w wide.
pub fn rows(
    dst: &mut [u16],
    to: usize,
    src: &[u16],
    w: usize,
    at: usize,
    dir: usize,
    f: Strength,
    g: Strength,
)
    requires all_low { AllLow src.now × (w ≤ 4096) × (dir < 8) × InRange f × InRange g }
    requires around { Around (length src.now) at (3 * w + 4) (taps_in w dir) × (to + (3 * w + 4) ≤ length dst.old) }
    ensures { Stored src.now dst.old dst.new w at to (taps_in w dir) f g 4 4 }
{
    let t = plane_taps::steps::taps(dir, w, 1);
    store(dst, w, to, four(src, w, at, t, f, g));
}
