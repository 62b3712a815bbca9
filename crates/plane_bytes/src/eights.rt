// Rows of eight samples of a block, two at a time, their taps straight from the plane.
// The parameters (src, w, k, t, f, g) stay apart (Kept) because run, on and back take (src, w, k) and one offset; filter_rows says why the bounds stay clauses,
// plane_rows why a fact of all samples, AllByte here, does.
ghost use Rattle.std.specs.Prelude.{◌≡◌, ℕ, ◌+◌, ◌-◌, ◌*◌, ◌<◌, ◌≤◌, length, slice_index};
ghost use Rattle.arith_sample.specs.Upto.{upto};
ghost use Rattle.filter_rows.specs.Sums.{filtered_at};
ghost use Rattle.plane_taps.specs.Reach.{Along, Around};
ghost use Rattle.plane_taps.specs.Runs.{run_by, on_by, back_by};
ghost use Rattle.plane_rows.specs.Rows.{placed, Stored};
ghost use Rattle.plane_bytes.specs.Eights.{AllByte, StrongBytes, eight_at};

use crate::lanes;
use filter_rows::{Strength, Taps};
use plane_taps::load::{ahead, behind, gather};
use std::array;

// Samples of at most 8 bits in bytes. By `map` a block took 12 times as long, by `zip` 13 times.
fn bytes(v: [u16; 16]) -> [u8; 16]
    requires { AllByte v }
    ensures { result ≡ upto (slice_index v) 16 }
{
    array::from_fn(|j| plane_byte::narrow(v[j]))
}

// The two rows in bytes.
fn run(src: &[u16], w: usize, k: usize) -> [u8; 16]
    requires { (k + (w + 8) ≤ length src.now) × (w ≤ 4096) × AllByte src.now }
    ensures { result ≡ run_by 8 src.now w k }
{
    bytes(gather::<8>(src, w, k))
}

// Their taps at an offset.
fn on(src: &[u16], w: usize, k: usize, o: usize) -> [u8; 16]
    requires { (w ≤ 4096) × Along (length src.now) k (w + 8) o × AllByte src.now }
    ensures { result ≡ on_by 8 src.now w k o }
{
    bytes(ahead::<8>(src, w, k, o))
}

// Their taps at the opposite of an offset. Kept beside `on`, as plane_taps::load::behind beside `ahead`.
fn back(src: &[u16], w: usize, k: usize, o: usize) -> [u8; 16]
    requires { (w ≤ 4096) × Along (length src.now) k (w + 8) o × AllByte src.now }
    ensures { result ≡ back_by 8 src.now w k o }
{
    bytes(behind::<8>(src, w, k, o))
}

// All bits where the near weight of the primary taps is 3, none where it is 4.
fn odd(near: u16) -> u8
    requires { (3 ≤ near) × (near ≤ 4) }
    ensures { result ≡ (4 - near) * 255 }
{
    ((4 - near) * 255) as u8
}

// The sixteen samples, filtered with both strengths.
fn both(src: &[u16], w: usize, k: usize, t: Taps, f: Strength, g: Strength) -> [u8; 16]
    requires { Around (length src.now) k (w + 8) t × AllByte src.now × (w ≤ 4096) × StrongBytes f g }
    ensures { result ≡ upto (λ j. filtered_at src.now (eight_at w k j) t f g) 16 }
{
    let c = run(src, w, k);
    let a0 = on(src, w, k, t.p0);
    let b0 = back(src, w, k, t.p0);
    let a1 = on(src, w, k, t.p1);
    let b1 = back(src, w, k, t.p1);
    let a2 = on(src, w, k, t.q0);
    let b2 = back(src, w, k, t.q0);
    let a3 = on(src, w, k, t.q1);
    let b3 = back(src, w, k, t.q1);
    let a4 = on(src, w, k, t.r0);
    let b4 = back(src, w, k, t.r0);
    let a5 = on(src, w, k, t.r1);
    let b5 = back(src, w, k, t.r1);
    lanes::both(
        &c,
        &a0,
        &b0,
        &a1,
        &b1,
        &a2,
        &b2,
        &a3,
        &b3,
        &a4,
        &b4,
        &a5,
        &b5,
        f.s as u8,
        f.sh,
        odd(f.w0),
        g.s as u8,
        g.sh,
    )
}

// Keeps them among a block's samples, from index `to` on.
fn keep(all: &mut [u16; 64], to: usize, v: [u8; 16])
    requires { to ≤ 48 }
    ensures { all.new ≡ placed all.old to v 0 16 }
{
    let wide: [u16; 16] = array::from_fn(|j| v[j] as u16);
    all[to..to + 16].copy_from_slice(&wide);
}

// Filters n pairs of rows of eight from index `at` of the plane on into the destination, from index `to` on; both are w wide.
// Kept by index: of `all.chunks_exact_mut(16)` the check knows afterwards the length and no entry.
pub fn rows(
    dst: &mut [u16],
    to: usize,
    src: &[u16],
    w: usize,
    at: usize,
    n: usize,
    t: Taps,
    f: Strength,
    g: Strength,
)
    requires all_byte { AllByte src.now × (w ≤ 4096) × (n ≤ 4) × StrongBytes f g }
    requires rows_inside { (i : ℕ) → i < n → Around (length src.now) (at + 2 * i * w) (w + 8) t × (to + 2 * i * w + (w + 8) ≤ length dst.old) }
    ensures { Stored src.now dst.old dst.new w at to t f g 8 (2 * n) }
{
    let mut all = [0u16; 64];
    for i in 0..n {
        let v = both(src, w, at + 2 * i * w, t, f, g);
        keep(&mut all, i * 16, v);
    }
    plane_rows::store(dst, w, to, &all, 2 * n);
}
