// A damping out of text.
ghost use Rattle.std.specs.Prelude.{min, ◌≡◌};
ghost use Rattle.still_steps.specs.Damping.{read_text, damping_of};

use cdef_blocks::numbers;
use cdef_spec::{Refusal, SignalledDamping};
use still_text::numbers::number_of;
use thiserror::Error;

// Why a text is no damping: the call for a quality index refused it; or it is neither an index nor a damping.
#[derive(Clone, Copy, Debug, PartialEq, Eq, Error)]
pub enum DampingError {
    #[error("the damping of the quality index returned error code {}: the index is not 0 to 255", u32::from(*.0))]
    Rejected(Refusal),
    #[error("DAMPING is q and a quality index, or d and a signalled damping")]
    NotDamping,
}

// A number as a u8; every larger one is 255, which no call accepts. Kept, since two callers need it: `u8::try_from(n).unwrap_or(255)` in both is no plainer.
pub fn small(n: usize) -> u8
    ensures { result ≡ min n 255 }
{
    n.min(255) as u8
}

// q and a quality index, or d and a signalled damping.
#[tactic(auto, using(crate::specs::DampingLaws::no_letter, crate::specs::DampingLaws::no_number), unfolding(crate::specs::Damping::read_text))]
pub fn damping_of(text: &[u8]) -> Result<SignalledDamping, DampingError>
    ensures { read_text result ≡ damping_of text.now }
{
    let (letter, number) = text.split_first().ok_or(DampingError::NotDamping)?;
    let n = number_of(number).ok_or(DampingError::NotDamping)?;
    match *letter {
        b'q' => numbers::damping(n as u32).map_err(DampingError::Rejected),
        b'd' => Ok(SignalledDamping(small(n))),
        _ => Err(DampingError::NotDamping),
    }
}
