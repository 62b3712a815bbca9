// Why the still is not filtered.
use cdef_spec::Refusal;
use std::io;
use still_files::FileError;
use still_steps::damping::DampingError;
use still_steps::refusals::Refused;
use still_steps::steps::StepError;
use thiserror::Error;

const USAGE: &str = "usage: filter_still STILL ORIGINAL DAMPING PRIMARY SECONDARY OUTPUT
STILL, ORIGINAL: binary PGM files of one size and one maximum, 255, 511, 1023, 2047 or 4095
DAMPING: q and a quality index, 0 to 255, or d and a signalled damping, 3 to 6
PRIMARY: 0 to 15; SECONDARY: 0, 1, 2 or 4; OUTPUT: the filtered picture";

// As it is printed; Stopped is what `main` returns: memory ran out, or nothing can be printed.
#[derive(Debug, Drop, Error)]
pub enum Problem<'a> {
    #[error("{}", USAGE)]
    Usage,
    #[error("{}, not {}", DampingError::NotDamping, .0)]
    Damping(&'a str),
    #[error("{}", DampingError::Rejected(*.0))]
    Index(Refusal),
    #[error("PRIMARY is a number, not {0}")]
    Primary(&'a str),
    #[error("SECONDARY is a number, not {0}")]
    Secondary(&'a str),
    #[error("{path}: {error}")]
    File { path: &'a str, error: FileError },
    #[error("the still and the original differ in size or maximum")]
    Different,
    #[error("{0}")]
    Refused(Refused),
    #[error(transparent)]
    Stopped(#[from] io::Error),
}

impl<'a> Problem<'a> {
    // What stopped the reading or the writing of the file of a name.
    pub fn of_file(path: &'a str, error: FileError) -> Problem<'a> {
        match error {
            FileError::Memory(e) => Problem::Stopped(io::Error::from(e)),
            other => Problem::File { path, error: other },
        }
    }
}

impl From<StepError> for Problem<'_> {
    fn from(error: StepError) -> Self {
        match error {
            StepError::Refused(refused) => Problem::Refused(refused),
            StepError::Memory(e) => Problem::Stopped(io::Error::from(e)),
        }
    }
}
