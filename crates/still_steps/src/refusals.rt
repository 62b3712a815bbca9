// A call that refused its input: which, its error code (RULES, Questions) and what that means.
use cdef_spec::Refusal;
use thiserror::Error;

// The calls that a still goes through.
#[derive(Clone, Copy, Debug, PartialEq, Eq, Error)]
pub enum Call {
    #[error("the direction pass")]
    DirectionPass,
    #[error("trying")]
    Trying,
    #[error("applying")]
    Applying,
    #[error("measuring")]
    Measuring,
}

impl Call {
    pub(crate) fn refused(self, refusal: Refusal) -> Refused {
        Refused {
            call: self,
            refusal,
        }
    }
}

#[derive(Clone, Copy, Debug, PartialEq, Eq, Error)]
#[error("{call} returned error code {}{}", u32::from(*.refusal), meaning(*.refusal))]
pub struct Refused {
    pub call: Call,
    pub refusal: Refusal,
}

// What a refusal means for a still; nothing where no call refuses one for that.
fn meaning(refusal: Refusal) -> &'static str {
    match refusal {
        Refusal::Depth => ": the depth is not 8 to 12",
        Refusal::Sides => ": a side is not 1 to 4096, or not a multiple of 8",
        Refusal::PlaneLength => ": a plane is not as long as its sides say",
        Refusal::Lengths => { ": a list has the wrong length, or the visible size is out of range" }
        Refusal::Values => ": a strength or the damping is out of range",
        Refusal::Samples => ": a sample is above the maximum",
        Refusal::Subsampling | Refusal::Position | Refusal::Destination => "",
    }
}
