// Sixteen samples from their taps, each list of taps in the samples' order.
// The lists and the numbers stay one by one (Kept), as in byte.rt, whose head says why.
ghost use Rattle.std.specs.Prelude.{◌≡◌, ◌<◌, ◌≤◌, slice_index};
ghost use Rattle.arith_sample.specs.Upto.{upto};
ghost use Rattle.plane_bytes.specs.Byte.{Mask, both_of};

use crate::byte;
use std::array;

// The samples filtered with both strengths.
pub fn both(
    c: &[u8; 16],
    a0: &[u8; 16],
    b0: &[u8; 16],
    a1: &[u8; 16],
    b1: &[u8; 16],
    a2: &[u8; 16],
    b2: &[u8; 16],
    a3: &[u8; 16],
    b3: &[u8; 16],
    a4: &[u8; 16],
    b4: &[u8; 16],
    a5: &[u8; 16],
    b5: &[u8; 16],
    s: u8,
    sh: u32,
    odd: u8,
    s2: u8,
    sh2: u32,
) -> [u8; 16]
    requires { (s ≤ 15) × (sh < 8) × Mask odd × (s2 ≤ 4) × (sh2 < 8) }
    ensures { result ≡ upto (λ n. both_of (slice_index a0.now n) (slice_index b0.now n) (slice_index a1.now n) (slice_index b1.now n)
        (slice_index a2.now n) (slice_index b2.now n) (slice_index a3.now n) (slice_index b3.now n) (slice_index a4.now n) (slice_index b4.now n)
        (slice_index a5.now n) (slice_index b5.now n) (slice_index c.now n) s sh odd s2 sh2) 16 }
{
    array::from_fn(|j| {
        byte::both(
            a0[j], b0[j], a1[j], b1[j], a2[j], b2[j], a3[j], b3[j], a4[j], b4[j], a5[j], b5[j],
            c[j], s, sh, odd, s2, sh2,
        )
    })
}
