// What the cases of all calls share.
ghost use Rattle.std.specs.Prelude.{◌≡◌, IfOk, IfErr};
ghost use Rattle.cdef_spec.specs.Answers.{error_code};

use cdef_spec::Refusal;
use std::alloc::{AllocError, Global};
use std::io;
use testlib_lines::numbers::LenientNumbers;

// A stored case of a call: its inputs, and what the call returned.
// An answer keeps the whole number that is stored, so that one too large for the answer's type is no answer.
pub trait Case: Sized + Drop {
    fn parse(line: LenientNumbers<'_>) -> Result<Self, AllocError>;

    // Whether the call returns what is stored.
    fn holds(self) -> bool;
}

// What a call returned as a line stores it: the error code, 0 where the work is done, and the answer, 0 where there is none.
pub fn stored<T: Default>(returned: Result<T, Refusal>) -> (u64, T)
    ensures answer { IfOk returned (λ answer. (result.0 ≡ 0) × (result.1 ≡ answer)) }
    ensures code { IfErr returned (λ refusal. result.0 ≡ error_code refusal) }
{
    match returned {
        Ok(answer) => (0, answer),
        Err(refusal) => (u64::from(u32::from(refusal)), T::default()),
    }
}

// Whether a line is a case that holds.
fn is_held<C: Case>(alloc: Global, line: &[u8]) -> Result<bool, AllocError> {
    Ok(C::parse(LenientNumbers::new(alloc, line))?.holds())
}

// Prints a line's own bytes, which need not be text.
fn print_different(rt: &impl Print, line: &[u8]) -> io::Result<()> {
    rt.write_all(b"different: ")?;
    rt.write_all(line)?;
    rt.write_all(b"\n")
}

// How many cases of a text hold; every other line is printed. A line that begins with # is a comment.
pub fn replayed<C: Case>(rt: &(impl Print + AllocGlobal), text: &[u8]) -> io::Result<usize> {
    let mut held: usize = 0;
    let lines = text
        .split_inclusive(|byte| *byte == b'\n')
        .map(|line| line.strip_suffix(b"\n").unwrap_or(line));
    for line in lines.filter(|line| !line.starts_with(b"#")) {
        if is_held::<C>(rt.alloc(), line)? {
            held = held.saturating_add(1);
        } else {
            print_different(rt, line)?;
        }
    }
    Ok(held)
}
