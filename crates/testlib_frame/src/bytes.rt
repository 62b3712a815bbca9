// A file's bytes, read one part after the other.
ghost use Rattle.std.specs.Prelude.{◌≡◌, length, IfOk, IfErr};
ghost use Rattle.testlib_frame.specs.declared.bytes.FrameError.TheVariants.{Length};

use std::num::TryFromIntError;
use thiserror::Error;

// Why a file is not a frame.
#[derive(Clone, Copy, Debug, PartialEq, Eq, Error)]
pub enum FrameError {
    #[error("it does not begin with CDEFRAW1")]
    Mark,
    #[error("a number of its header is outside the range that is read here: {0}")]
    Number(#[from] TryFromIntError),
    #[error("it is not as long as its header says")]
    Length,
}

// What of a file has not been read.
#[derive(Clone, Copy)]
pub struct Bytes<'a> {
    rest: &'a [u8],
}

impl<'a> Bytes<'a> {
    pub fn new(file: &'a [u8]) -> Self {
        Bytes { rest: file }
    }

    // The next so many bytes.
    pub fn take(&mut self, count: usize) -> Result<&'a [u8], FrameError>
        ensures bytes { IfOk result (λ bytes. length bytes.now ≡ count) }
        ensures error { IfErr result (λ e. e ≡ Length) }
    {
        let (bytes, rest) = self.rest.split_at_checked(count).ok_or(FrameError::Length)?;
        self.rest = rest;
        Ok(bytes)
    }

    // The next four bytes as a number, the low one first.
    pub fn word(&mut self) -> Result<u32, FrameError>
        ensures { IfErr result (λ e. e ≡ Length) }
    {
        let (bytes, rest) = self.rest.split_first_chunk().ok_or(FrameError::Length)?;
        self.rest = rest;
        Ok(u32::from_le_bytes(*bytes))
    }

    // That nothing is left.
    pub fn end(self) -> Result<(), FrameError>
        ensures { IfErr result (λ e. e ≡ Length) }
    {
        if self.rest.is_empty() {
            return Ok(());
        }
        Err(FrameError::Length)
    }
}
