// The checks of the calls on single numbers, in order: each returns why the first that fails does. No function here requires anything.
#![tactic(auto, unfolding(cdef_spec::specs::Answers::code_of, cdef_spec::specs::Answers::error_code, cdef_spec::specs::Questions::first_no, cdef_spec::specs::BlockCalls::constrain_no, cdef_spec::specs::BlockCalls::adjust_no, cdef_spec::specs::BlockCalls::damping_no, cdef_spec::specs::BlockCalls::working_damping_no))]

ghost use Rattle.std.specs.Prelude.{◌≡◌};
ghost use Rattle.cdef_spec.specs.Answers.{code_of, error_code};
ghost use Rattle.cdef_spec.specs.Questions.{first_no};
ghost use Rattle.cdef_spec.specs.BlockCalls.{constrain_no, adjust_no, damping_no, working_damping_no};

use cdef_spec::{Refusal, SignalledDamping, WorkingDamping};

// Constrain: 8 and 9.
pub fn constrain_no(difference: i32, strength: u32, damping: WorkingDamping) -> Result<(), Refusal>
    ensures { code_of result ≡ constrain_no difference strength damping }
{
    if !(check_values::strength_taken(strength) && check_values::working_taken(damping)) {
        return Err(Refusal::Values);
    }
    if !check_values::difference_taken(difference) {
        return Err(Refusal::Samples);
    }
    Ok(())
}

// Adjust: 8.
pub fn adjust_no(strength: u32, variance: u32) -> Result<(), Refusal>
    ensures { code_of result ≡ adjust_no strength variance }
{
    if !(check_values::strength_taken(strength) && check_values::variance_taken(variance)) {
        return Err(Refusal::Values);
    }
    Ok(())
}

// The damping of a quality index: 8.
pub fn damping_no(index: u32) -> Result<(), Refusal>
    ensures { code_of result ≡ damping_no index }
{
    if !check_values::index_taken(index) {
        return Err(Refusal::Values);
    }
    Ok(())
}

// The working damping of a plane: 1 and 8.
pub fn working_damping_no(signalled: SignalledDamping, depth: u8) -> Result<(), Refusal>
    ensures { code_of result ≡ working_damping_no signalled depth }
{
    if !check_sides::depth_taken(depth) {
        return Err(Refusal::Depth);
    }
    if !check_values::signalled_taken(signalled) {
        return Err(Refusal::Values);
    }
    Ok(())
}
