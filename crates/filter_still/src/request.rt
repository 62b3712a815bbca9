// The files, the damping and the pair out of the arguments.
use crate::problem::Problem;
use cdef_spec::{SignalledDamping, UnitPair};
use still_steps::damping::{DampingError, damping_of, small};
use still_text::numbers::number_of;

// The files that the arguments name, and what the still is filtered with.
#[derive(Clone, Copy)]
pub struct Request<'a> {
    pub still: &'a str,
    pub original: &'a str,
    pub output: &'a str,
    pub damping: SignalledDamping,
    pub pair: UnitPair,
}

fn damping_argument(given: &str) -> Result<SignalledDamping, Problem<'_>> {
    match damping_of(given.as_bytes()) {
        Ok(damping) => Ok(damping),
        Err(DampingError::Rejected(refusal)) => Err(Problem::Index(refusal)),
        Err(DampingError::NotDamping) => Err(Problem::Damping(given)),
    }
}

// The number given by an argument, which no call accepts where it is not a strength.
fn strength_argument(given: &str) -> Option<u8> {
    number_of(given.as_bytes()).map(small)
}

// The request of the program's name and six arguments.
pub fn request_of(given: &[String]) -> Result<Request<'_>, Problem<'_>> {
    let [_, still, original, damping, primary, secondary, output] = given else {
        return Err(Problem::Usage);
    };
    let primary = primary.as_str();
    let secondary = secondary.as_str();
    let damping = damping_argument(damping.as_str())?;
    let pair = UnitPair {
        primary: strength_argument(primary).ok_or(Problem::Primary(primary))?,
        secondary: strength_argument(secondary).ok_or(Problem::Secondary(secondary))?,
    };
    Ok(Request {
        still: still.as_str(),
        original: original.as_str(),
        output: output.as_str(),
        damping,
        pair,
    })
}
