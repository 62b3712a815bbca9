// Files of lines, and lines of decimal numbers separated by single blanks.
#![tactic(auto)]

pub mod numbers; // numbers.rt: the numbers of a line, one after the other, read strictly or leniently

ghost use Rattle.std.specs.Prelude.{◌≤◌, IfOk, vec_len};

use std::io::Read;
use std::rt::Files;
use std::{fs, io};

// The most bytes of a file that `read_file_capped` reads, so that one without an end is read too.
const MOST: usize = 1_000_000;

// The bytes of a file, however many: one without an end is read until memory runs out, and a pipe in packet mode may lose the end of a packet.
// One that cannot be opened is reported on stderr, and has none.
pub fn read_file<R: Files + Eprint + AllocGlobal>(rt: &R, path: &str) -> io::Result<Vec<u8>> {
    let mut bytes = Vec::new(rt.alloc());
    match fs::open(rt, path) {
        Ok(mut file) => {
            file.read_to_end(&mut bytes)?;
        }
        Err(e) => eprintln!(rt; "{path}: {e}")?,
    }
    Ok(bytes)
}

// The bytes of a file, the first MOST where it has more. One that cannot be opened is reported on stderr, and has none.
pub fn read_file_capped<R: Files + Eprint + AllocGlobal>(rt: &R, path: &str) -> io::Result<Vec<u8>>
    ensures { IfOk result (λ bytes. vec_len bytes ≤ 1000000) }
{
    // Room for all of them, so that each read asks for what may still come: a pipe in packet mode loses what a read leaves of a packet.
    let mut bytes = Vec::with_capacity(rt.alloc(), MOST)?;
    match fs::open(rt, path) {
        Ok(file) => {
            file.take(MOST as u64).read_to_end(&mut bytes)?;
        }
        Err(e) => eprintln!(rt; "{path}: {e}")?,
    }
    // Cuts nothing: `take` has, but no clause of it says so where the file's bytes are unknown.
    bytes.truncate(MOST);
    Ok(bytes)
}
