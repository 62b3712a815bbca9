// The header of a file that is accepted, or what is wrong with the file.
ghost use Rattle.std.specs.Prelude.{◌*◌, ◌≤◌, ◌≡◌, true, Some, None, MatchResult};
ghost use Rattle.still_pgm.specs.Sizes.{depth_of, step_of, padded, is_taken};

use crate::header::Header;
use crate::{header, sizes};
use thiserror::Error;

// What is wrong with a file.
#[derive(Clone, Copy, Debug, PartialEq, Eq, Error)]
pub enum Fault {
    #[error("not a binary PGM file (P5, width, height, maximum)")]
    NoHeader,
    #[error("the maximum is not 255, 511, 1023, 2047 or 4095")]
    Maximum,
    #[error("a side is not 1 to 4096, or the padded picture has more than 786432 samples")]
    Size,
    #[error("it is not as long as its header says")]
    Length,
}

// A header whose maximum and sides are accepted, and the depth of that maximum.
#[derive(Clone, Copy)]
pub struct Format {
    pub header: Header,
    pub depth: u8,
    pub ghost taken: { is_taken header.width header.height ≡ true },
    pub ghost deep: { depth_of header.maximum ≡ Some depth },
}

impl Format {
    ghost use Rattle.still_pgm.specs.Header.{header_of};
    ghost use Rattle.still_pgm.specs.Faults.{fault_in, fault_of};

    // The format of a header with so many bytes behind it, or the first thing that is wrong.
    #[tactic(auto, using(crate::specs::SizesLaws::fault_maximum, crate::specs::SizesLaws::fault_size, crate::specs::SizesLaws::fault_length, crate::specs::SizesLaws::fault_none))]
    pub fn of(header: Header, bytes: usize) -> Result<Format, Fault>
        ensures { MatchResult result (λ f. (f.header ≡ header) × (None ≡ fault_in bytes header)) (λ e. Some e ≡ fault_in bytes header) }
    {
        let Some(depth) = sizes::depth_of(header.maximum) else {
            return Err(Fault::Maximum);
        };
        if !sizes::is_taken(header.width, header.height) {
            return Err(Fault::Size);
        }
        let format = Format { header, depth };
        if bytes != format.bytes() {
            return Err(Fault::Length);
        }
        Ok(format)
    }

    // How many bytes a sample has.
    pub fn step(&self) -> usize
        ensures { result ≡ step_of self.now.header.maximum }
    {
        sizes::step_of(self.header.maximum)
    }

    // How many bytes the samples have.
    pub fn bytes(&self) -> usize
        ensures counted { result ≡ self.now.header.width * self.now.header.height * step_of self.now.header.maximum }
        ensures most { result ≤ 1572864 }
    {
        self.header.width * self.header.height * self.step()
    }

    // The padded width.
    pub fn pitch(&self) -> usize
        ensures { result ≡ padded self.now.header.width }
    {
        sizes::padded_side(self.header.width)
    }

    // The padded height.
    pub fn rows(&self) -> usize
        ensures { result ≡ padded self.now.header.height }
    {
        sizes::padded_side(self.header.height)
    }

    // The format of a file and the bytes of its samples, or the first thing that is wrong with the file.
    #[tactic(auto, unfolding(crate::specs::Faults::fault_of))]
    pub fn read(file: &[u8]) -> Result<(Format, &[u8]), Fault>
        ensures { MatchResult result (λ p. (Some (p.0.header, p.1.now) ≡ header_of file.now) × (None ≡ fault_of (header_of file.now))) (λ e. Some e ≡ fault_of (header_of file.now)) }
    {
        let Some((header, samples)) = header::header_of(file) else {
            return Err(Fault::NoHeader);
        };
        let format = Format::of(header, samples.len())?;
        Ok((format, samples))
    }
}
