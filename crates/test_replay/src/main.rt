// Runs stored cases through the public calls: answers of the Rust reference, and RULES, Worked lines. data/README.md gives the formats.
// Prints each case that does not return what is stored, and for each file how many cases do.
#![tactic(auto)]

mod blocks; // blocks.rt: calls on a block
mod call; // call.rt: which call a file has cases of
mod case; // case.rt: what the cases of all calls share
mod chroma; // chroma.rt: applying in chroma
mod distances; // distances.rt: calls on two blocks
mod numbers; // numbers.rt: calls on numbers

use call::Call;
use std::rt::Files;
use std::{fs, io};

fn main(rt: HostRuntime) -> io::Result<()> {
    let list = fs::read_to_string(&rt, "files.txt")?;
    for line in list.lines() {
        file(&rt, line)?;
    }
    Ok(())
}

// A line of the list: a call's number, and the file with its cases. One with no blank names no file, and is passed over.
fn file(rt: &(impl Files + Print + Eprint + AllocGlobal), line: &str) -> io::Result<()> {
    let Some((number, path)) = line.split_once(' ') else {
        return Ok(());
    };
    let call = Call::from(testlib_lines::numbers::value(number.as_bytes()));
    let bytes = testlib_lines::read_file_capped(rt, path)?;
    let same = call.replayed(rt, &bytes)?;
    println!(rt; "{path}: as stored {same}")
}
