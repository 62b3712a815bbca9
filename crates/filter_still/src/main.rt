// Filters a still: filter_still STILL ORIGINAL DAMPING PRIMARY SECONDARY OUTPUT.
// STILL is the decoded picture before CDEF, ORIGINAL its source: binary PGM files of one size and one maximum.
// The still is tried, filtered with one pair in every unit, and measured; OUTPUT is the filtered picture.
// Errors are reported on stderr, and then no file is written. The README of this crate says more.
#![tactic(auto)]

mod problem; // problem.rt: why the still is not filtered
mod report; // report.rt: what is printed
mod request; // request.rt: the arguments
mod still; // still.rt: the still read, filtered and written

use problem::Problem;
use std::{env, io};

fn main(rt: HostRuntime) -> io::Result<()> {
    let given: Vec<String> = env::args(&rt)?.collect(rt.alloc())?;
    match still::filter(&rt, rt.alloc(), given.as_slice()) {
        Ok(()) => Ok(()),
        Err(Problem::Stopped(error)) => Err(error),
        Err(problem) => rt.eprintln(problem),
    }
}
