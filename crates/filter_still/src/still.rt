// The still read, filtered and written.
use crate::problem::Problem;
use crate::{report, request};
use cdef_spec::Visible;
use std::alloc::Global;
use std::rt::Files;
use still_files::{Picture, read_picture, write_picture};
use still_lists::Counts;
use still_steps::steps;
use still_steps::steps::Job;

fn picture<'a>(rt: &impl Files, alloc: Global, path: &'a str) -> Result<Picture, Problem<'a>> {
    read_picture(rt, alloc, path).map_err(|e| Problem::of_file(path, e))
}

// Filters the still that the arguments name, writes it, and then prints.
pub fn filter<'a>(
    rt: &(impl Files + Print),
    alloc: Global,
    given: &'a [String],
) -> Result<(), Problem<'a>> {
    let request = request::request_of(given)?;
    let still = picture(rt, alloc, request.still)?;
    let original = picture(rt, alloc, request.original)?;
    let format = still.format;
    if format.header != original.format.header {
        return Err(Problem::Different);
    }
    let counts = Counts::of(format.header.width, format.header.height);
    let job = Job {
        still: still.plane.as_slice(),
        original: original.plane.as_slice(),
        counts,
        visible: Visible {
            width: format.header.width,
            height: format.header.height,
        },
        depth: format.depth,
        pair: request.pair,
        damping: Some(request.damping),
    };
    let filtered = steps::filter(alloc, &job)?;
    write_picture(rt, alloc, request.output, format, filtered.plane.as_slice()).map_err(
        |e| Problem::of_file(request.output, e),
    )?;
    report::report(rt, &job, &filtered)?;
    Ok(())
}
