// The calls on single numbers.
ghost use Rattle.std.specs.Prelude.{◌≡◌};
ghost use Rattle.cdef_spec.specs.Answers.{read};
ghost use Rattle.cdef_spec.specs.BlockCalls.{constrain_outcome, adjust_outcome, damping_outcome, luma_damping_outcome, chroma_damping_outcome};

use cdef_spec::{Refusal, SignalledDamping, WorkingDamping};

// Constrains a difference; the working damping is used as it is, 0 included.
pub fn constrain(difference: i32, strength: u32, damping: WorkingDamping) -> Result<i32, Refusal>
    ensures { read result ≡ constrain_outcome difference strength damping }
{
    check_numbers::constrain_no(difference, strength, damping)?;
    Ok(arith_strength::constrain_spec(difference, strength, damping))
}

// Adjusts a primary strength by a variance.
pub fn adjust(strength: u32, variance: u32) -> Result<u32, Refusal>
    ensures { read result ≡ adjust_outcome strength variance }
{
    check_numbers::adjust_no(strength, variance)?;
    Ok(arith_strength::adjust_pri(strength, variance))
}

// The signalled damping of a quality index.
pub fn damping(index: u32) -> Result<SignalledDamping, Refusal>
    ensures { read result ≡ damping_outcome index }
{
    check_numbers::damping_no(index)?;
    Ok(arith_damping::cdef_damping(index))
}

// The working damping of a luma plane: the signalled one + depth - 8. Kept beside chroma's: the two rules have a name each (`docs/RULES.md`), and a C entry each.
pub fn luma_damping(signalled: SignalledDamping, depth: u8) -> Result<WorkingDamping, Refusal>
    ensures { read result ≡ luma_damping_outcome signalled depth }
{
    check_numbers::working_damping_no(signalled, depth)?;
    Ok(arith_damping::luma_damping(signalled, depth))
}

// The working damping of a chroma plane: one less than luma's. Kept beside luma's, likewise.
pub fn chroma_damping(signalled: SignalledDamping, depth: u8) -> Result<WorkingDamping, Refusal>
    ensures { read result ≡ chroma_damping_outcome signalled depth }
{
    check_numbers::working_damping_no(signalled, depth)?;
    Ok(arith_damping::chroma_damping(signalled, depth))
}
