// Reads numbers of lines, files and frames by the functions of the test libraries that refuse what is malformed and have no limit,
// and beside them by those that refuse little and are capped, and prints what each returns. No other program calls the first.
#![tactic(auto)]

mod frames; // frames.rt: frames that are made here, parsed both ways
mod lines; // lines.rt: lines of numbers

use std::io;
use std::rt::Files;

fn main(rt: HostRuntime) -> io::Result<()> {
    lines::read(&rt)?;
    file(&rt, "line.txt")?;
    file(&rt, "none.txt")?;
    frames::read(&rt)
}

// Prints how many bytes a file has, read both ways. One that cannot be opened has none.
fn file(rt: &(impl Files + Print + Eprint + AllocGlobal), path: &str) -> io::Result<()> {
    let whole = testlib_lines::read_file(rt, path)?;
    let capped = testlib_lines::read_file_capped(rt, path)?;
    println!(rt; "{path}: {} and {} bytes", whole.len(), capped.len())
}
