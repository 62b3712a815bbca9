// The arithmetic of strengths: the base 2 logarithm, constrained differences, the adjusted primary strength. Nothing is validated here.
// Kept as numbers with their bounds: entries of the C interface pass them as C gives them, and the field of a `WorkingDamping` may be any u8, also one above 31.
#![tactic(auto)]

ghost use Rattle.std.specs.Prelude.{◌≡◌, ◌≤◌, nat_abs};
ghost use Rattle.cdef_spec.specs.Standard.{floor_log2, adjust_pri, constrain};
ghost use Rattle.cdef_spec.specs.CodeForm.{constrain_mag};

use cdef_spec::WorkingDamping;

// The index of the highest set bit, 0 for 0.
// Kept beside std's logarithm: it is the standard's FloorLog2, which has a value at 0 too, and an entry of the C interface calls it.
pub fn log2_floor(v: u32) -> u32
    ensures { result ≡ floor_log2 v }
{
    v.checked_ilog2().unwrap_or(0)
}

// The magnitude of a constrained difference of magnitude a. Kept beside arith_sample::constrain_tap, as said there.
pub fn constrain_mag(a: u32, strength: u32, damping: u32) -> u32
    requires { damping ≤ 31 }
    ensures { result ≡ constrain_mag a strength damping }
{
    if strength == 0 {
        return 0;
    }
    let shift = damping.saturating_sub(log2_floor(strength));
    a.min(strength.saturating_sub(a >> shift))
}

// The constrained difference: its magnitude, with the difference's sign.
pub fn constrain_spec(diff: i32, strength: u32, damping: WorkingDamping) -> i32
    requires { (nat_abs diff ≤ 65535) × (damping.0 ≤ 31) }
    ensures { result ≡ constrain diff strength damping.0 }
{
    let m = constrain_mag(diff.unsigned_abs(), strength, damping.0 as u32) as i32;
    if diff < 0 {
        return -m;
    }
    m
}

// The primary strength of a luma block, adjusted by its variance.
pub fn adjust_pri(pri: u32, var: u32) -> u32
    requires { pri ≤ 65535 }
    ensures { result ≡ adjust_pri pri var }
{
    if var == 0 {
        return 0;
    }
    let l = log2_floor(var >> 6).min(12);
    (pri * (4 + l) + 8) >> 4
}
