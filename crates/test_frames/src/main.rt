// Filters frames of AV1 streams and compares every sample with the output of a stock decoder's CDEF.
// One line per file of data/files.txt: its sides, depth, subsampling flags and blocks, and for each plane the error code, the samples compared and those that differ.
// data/README.md gives the layout of the files and where they come from.
#![tactic(auto)]

mod planes; // planes.rt: the planes of a frame, filtered and compared

use std::rt::Files;
use std::{fs, io};
use testlib_frame::frame::Frame;

fn main(rt: HostRuntime) -> io::Result<()> {
    let list = fs::read_to_string(&rt, "files.txt")?;
    for path in list.lines() {
        file(&rt, path)?;
    }
    Ok(())
}

fn file(rt: &(impl Files + Print + Eprint + AllocGlobal), path: &str) -> io::Result<()> {
    let bytes = testlib_lines::read_file_capped(rt, path)?;
    print!(rt; "{path}")?;
    match Frame::parse_capped(&bytes) {
        Ok(frame) => planes::compared(rt, &frame)?,
        Err(_) => print!(rt; ": not a frame")?,
    }
    println!(rt;)
}
