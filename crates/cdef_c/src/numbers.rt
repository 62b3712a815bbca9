// The calls on single numbers. C passes dampings as plain numbers, which become the types of the calls here.
ghost use Rattle.std.specs.Prelude.{◌≡◌};
ghost use Rattle.cdef_spec.specs.Standard.{floor_log2};
ghost use Rattle.cdef_spec.specs.Answers.{number_of};
ghost use Rattle.cdef_spec.specs.BlockCalls.{constrain_outcome, adjust_outcome, damping_outcome, luma_damping_outcome, chroma_damping_outcome};
ghost use Rattle.cdef_c.specs.Values.{value_or};

use crate::answer::give;
use cdef_spec::{SignalledDamping, WorkingDamping};

// Constrains a difference.
#[unsafe(no_mangle)]
pub extern "C" fn quern_constrain(difference: i32, strength: u32, damping: u8, out: &mut i32) -> u32
    ensures code { result ≡ number_of (constrain_outcome difference strength (record { 0 = damping })) }
    ensures out_after { out.new ≡ value_or out.old (constrain_outcome difference strength (record { 0 = damping })) }
{
    give(
        cdef_blocks::numbers::constrain(difference, strength, WorkingDamping(damping)),
        out,
    )
}

// Adjusts a primary strength by a variance.
#[unsafe(no_mangle)]
pub extern "C" fn quern_adjust_pri(strength: u32, variance: u32, out: &mut u32) -> u32
    ensures code { result ≡ number_of (adjust_outcome strength variance) }
    ensures out_after { out.new ≡ value_or out.old (adjust_outcome strength variance) }
{
    give(cdef_blocks::numbers::adjust(strength, variance), out)
}

// The signalled damping of a quality index.
#[unsafe(no_mangle)]
pub extern "C" fn quern_damping(index: u32, out: &mut u8) -> u32
    ensures code { result ≡ number_of (damping_outcome index) }
    ensures out_after { out.new ≡ (value_or (record { 0 = out.old }) (damping_outcome index)).0 }
{
    give(cdef_blocks::numbers::damping(index).map(|d| d.0), out)
}

// The working damping of a luma plane. Kept beside chroma's: C has an entry for each, with a name of its own.
#[unsafe(no_mangle)]
pub extern "C" fn quern_luma_damping(signalled: u8, depth: u8, out: &mut u8) -> u32
    ensures code { result ≡ number_of (luma_damping_outcome (record { 0 = signalled }) depth) }
    ensures out_after { out.new ≡ (value_or (record { 0 = out.old }) (luma_damping_outcome (record { 0 = signalled }) depth)).0 }
{
    give(
        cdef_blocks::numbers::luma_damping(SignalledDamping(signalled), depth).map(|d| d.0),
        out,
    )
}

// The working damping of a chroma plane. Kept beside luma's, likewise.
#[unsafe(no_mangle)]
pub extern "C" fn quern_chroma_damping(signalled: u8, depth: u8, out: &mut u8) -> u32
    ensures code { result ≡ number_of (chroma_damping_outcome (record { 0 = signalled }) depth) }
    ensures out_after { out.new ≡ (value_or (record { 0 = out.old }) (chroma_damping_outcome (record { 0 = signalled }) depth)).0 }
{
    give(
        cdef_blocks::numbers::chroma_damping(SignalledDamping(signalled), depth).map(|d| d.0),
        out,
    )
}

// The place of the highest set bit, 0 for 0: returned itself, since nothing is rejected.
#[unsafe(no_mangle)]
pub extern "C" fn quern_log2_floor(v: u32) -> u32
    ensures { result ≡ floor_log2 v }
{
    arith_strength::log2_floor(v)
}
