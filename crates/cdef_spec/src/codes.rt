// Why a call refuses: its error code as a number, and as a sentence (RULES, Questions).
// Kept written out, Display and Error: the derives of `thiserror` would be the library's only use of a crate beside std.

ghost use Rattle.std.specs.Prelude.{◌≡◌};
ghost use Rattle.cdef_spec.specs.Answers.{error_code};

use crate::Refusal;
use std::error::Error;
use std::fmt;

impl From<Refusal> for u8 {
    ghost from_gives = { λ r n. n ≡ error_code r };

    fn from(refusal: Refusal) -> u8 {
        refusal as u8
    }
}

impl From<Refusal> for u32 {
    ghost from_gives = { λ r n. n ≡ error_code r };

    fn from(refusal: Refusal) -> u32 {
        u32::from(u8::from(refusal))
    }
}

impl fmt::Display for Refusal {
    fn fmt<W: fmt::Write>(&self, f: &mut fmt::Formatter<W>) -> fmt::Result {
        match self {
            Refusal::Depth => write!(f, "the bit depth is not 8 to 12"),
            Refusal::Sides => write!(
                f,
                "a side of the plane is not in its range, or no multiple of 8"
            ),
            Refusal::Subsampling => write!(f, "a subsampling flag is not 0 or 1"),
            Refusal::PlaneLength => write!(
                f,
                "a plane does not have as many samples as its sides say"
            ),
            Refusal::Position => write!(
                f,
                "the block's corner is not on the plane, or a side is not 1 to 8"
            ),
            Refusal::Destination => write!(
                f,
                "the destination is not whole rows that hold the block"
            ),
            Refusal::Lengths => write!(
                f,
                "a list has not its length, or the visible size is not within the picture"
            ),
            Refusal::Values => write!(f, "a flag or number is not in its range"),
            Refusal::Samples => write!(
                f,
                "a sample is not below 2^depth, or a difference is beyond 4095"
            ),
        }
    }
}

impl Error for Refusal {}
