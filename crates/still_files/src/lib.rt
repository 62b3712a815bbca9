// Pictures out of files and into files.
// Kept as parameters: what the program may do (files, memory) and a path, as std's functions take them.
#![tactic(auto)]

ghost use Rattle.std.specs.Prelude.{◌≡◌, true};
ghost use Rattle.still_pgm.specs.Sizes.{is_taken};

use std::alloc::{AllocError, Global};
use std::io::{Read, Write};
use std::rt::Files;
use std::{fs, io};
use still_pgm::format::{Fault, Format};
use still_pgm::header::Header;
use still_pgm::{decode, encode, sizes};
use thiserror::Error;

// No file of so many bytes, or of more, is read.
const LIMIT: usize = 1_580_000;

// A picture that was read: its format, and its padded plane.
#[derive(Drop)]
pub struct Picture {
    pub format: Format,
    pub plane: Vec<u16>,
}

// Why a file is not read or written: what the system says, what is wrong with it, or that memory ran out.
#[derive(Debug, Drop, Error)]
pub enum FileError {
    #[error(transparent)]
    System(#[from] io::Error),
    #[error("1580000 bytes long or longer")]
    TooLong,
    #[error(transparent)]
    Fault(#[from] Fault),
    #[error(transparent)]
    Memory(#[from(alloc)] AllocError),
}

// The bytes of the file of a name.
fn read_file(rt: &impl Files, alloc: Global, path: &str) -> Result<Vec<u8>, FileError> {
    // One byte more than is read, so that the read which finds the end asks for no more memory.
    let mut bytes = Vec::with_capacity(alloc, LIMIT + 1)?;
    let file = fs::open(rt, path)?;
    file.take(LIMIT as u64).read_to_end(&mut bytes)?;
    if bytes.len() == LIMIT {
        return Err(FileError::TooLong);
    }
    Ok(bytes)
}

// The picture in the file of a name.
pub fn read_picture(rt: &impl Files, alloc: Global, path: &str) -> Result<Picture, FileError> {
    let file = read_file(rt, alloc, path)?;
    let (format, samples) = Format::read(file.as_slice())?;
    let plane = decode::decode(alloc, format, samples)?;
    Ok(Picture { format, plane })
}

// Writes the visible part of a plane to the file of a name, under a header of any maximum: a sample has one byte up to 255, two above.
pub fn write_samples(
    rt: &impl Files,
    alloc: Global,
    path: &str,
    header: Header,
    plane: &[u16],
) -> Result<(), FileError>
    requires { is_taken header.width header.height ≡ true }
{
    let pitch = sizes::padded_side(header.width);
    let step = sizes::step_of(header.maximum);
    let bytes = header.width * header.height * step;
    let mut samples = vec![in alloc; 0; bytes]?;
    encode::encode_rows(samples.as_mut_slice(), plane, header.width, pitch, step);
    let mut file = fs::create(rt, path)?;
    write!(file, "{header}")?;
    file.write_all(samples.as_slice())?;
    Ok(())
}

// Writes the visible part of a plane to the file of a name.
pub fn write_picture(
    rt: &impl Files,
    alloc: Global,
    path: &str,
    format: Format,
    plane: &[u16],
) -> Result<(), FileError> {
    write_samples(rt, alloc, path, format.header, plane)
}
