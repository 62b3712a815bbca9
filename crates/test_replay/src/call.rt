// Which call a file has cases of.
use crate::blocks::{Direction, Filter, Trial};
use crate::case;
use crate::chroma::ApplyChroma;
use crate::distances::{Distance, Squares};
use crate::numbers::{Adjust, Constrain, Damping, Log2Floor};
use std::io;

// The calls in the order of their numbers.
#[derive(Clone, Copy, Debug, PartialEq, Eq)]
pub enum Call {
    Constrain,
    Adjust,
    Damping,
    Log2Floor,
    Direction,
    Filter,
    Trial,
    Distance,
    Squares,
    ApplyChroma,
}

impl From<u64> for Call {
    // Kept as numbers: files.txt and the table of data/README.md name the calls by them.
    // The last call has every number from 9 on, and where a line of the list has none.
    fn from(number: u64) -> Self {
        match number {
            0 => Call::Constrain,
            1 => Call::Adjust,
            2 => Call::Damping,
            3 => Call::Log2Floor,
            4 => Call::Direction,
            5 => Call::Filter,
            6 => Call::Trial,
            7 => Call::Distance,
            8 => Call::Squares,
            _ => Call::ApplyChroma,
        }
    }
}

impl Call {
    // How many cases of a text return what is stored.
    pub fn replayed(self, rt: &(impl Print + AllocGlobal), text: &[u8]) -> io::Result<usize> {
        match self {
            Call::Constrain => case::replayed::<Constrain>(rt, text),
            Call::Adjust => case::replayed::<Adjust>(rt, text),
            Call::Damping => case::replayed::<Damping>(rt, text),
            Call::Log2Floor => case::replayed::<Log2Floor>(rt, text),
            Call::Direction => case::replayed::<Direction>(rt, text),
            Call::Filter => case::replayed::<Filter>(rt, text),
            Call::Trial => case::replayed::<Trial>(rt, text),
            Call::Distance => case::replayed::<Distance>(rt, text),
            Call::Squares => case::replayed::<Squares>(rt, text),
            Call::ApplyChroma => case::replayed::<ApplyChroma>(rt, text),
        }
    }
}
