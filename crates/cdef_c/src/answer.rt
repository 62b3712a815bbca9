// Answers as C returns them: an error code, and a value through a pointer.
ghost use Rattle.std.specs.Prelude.{◌≡◌};
ghost use Rattle.cdef_spec.specs.Answers.{number_of, read, read_done};
ghost use Rattle.cdef_c.specs.Values.{value_or};

use cdef_spec::Refusal;

// The error code of an answer without a value (RULES, Questions), 0 where the work is done. Kept as a number: C takes it so.
#[tactic(auto, unfolding(cdef_spec::specs::Answers::number_of, cdef_spec::specs::Answers::read_done))]
pub fn number(answer: Result<(), Refusal>) -> u32
    ensures { result ≡ number_of (read_done answer) }
{
    match answer {
        Ok(()) => 0,
        Err(refusal) => u32::from(refusal),
    }
}

// The error code of an answer, and its value in `out` where it has one.
#[tactic(auto, unfolding(cdef_spec::specs::Answers::number_of, cdef_spec::specs::Answers::read, crate::specs::Values::value_or))]
pub fn give<T: Copy>(answer: Result<T, Refusal>, out: &mut T) -> u32
    ensures code { result ≡ number_of (read answer) }
    ensures out_after { out.new ≡ value_or out.old (read answer) }
{
    match answer {
        Ok(value) => {
            *out = value;
            0
        }
        Err(refusal) => u32::from(refusal),
    }
}
