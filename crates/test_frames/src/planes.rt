// The planes of a frame, filtered and compared with the recorded ones.
use cdef_spec::{Picture, Plane, PlaneKind, Refusal, SignalledDamping};
use std::alloc::{AllocError, Global};
use std::io;
use testlib_frame::frame::{Component, Frame};
use testlib_frame::header::small;

// The most blocks of a frame whose skip flags are used; those that follow are left out.
const MOST_BLOCKS: usize = 4_800;

// The most units of a frame whose pairs are used; those that follow are left out.
const MOST_UNITS: usize = 80;

// The directions and the variances of a frame's blocks, which are luma's before CDEF, and what the call for them returned.
#[derive(Drop)]
struct Directions {
    dirs: Vec<u8>,
    vars: Vec<u32>,
    done: Result<(), Refusal>,
}

pub fn compared(rt: &(impl Print + AllocGlobal), frame: &Frame<'_>) -> io::Result<()> {
    let header = frame.header;
    print!(rt;
        " {} {} {} {} {} {}",
        header.width,
        header.height,
        header.depth,
        header.sx,
        header.sy,
        flags(frame).len()
    )?;
    let found = directed(rt.alloc(), frame)?;
    plane(rt, frame, Component::Y, &found)?;
    if !header.monochrome {
        plane(rt, frame, Component::U, &found)?;
        plane(rt, frame, Component::V, &found)?;
    }
    Ok(())
}

// The skip flags of a frame, the first MOST_BLOCKS at most.
fn flags<'a>(frame: &Frame<'a>) -> &'a [u8] {
    frame.skip.get(..MOST_BLOCKS).unwrap_or(frame.skip)
}

fn directed(alloc: Global, frame: &Frame<'_>) -> Result<Directions, AllocError> {
    let header = frame.header;
    let samples = frame.before_capped(alloc, Component::Y)?;
    let mut dirs = vec![in alloc; 0u8; flags(frame).len()]?;
    let mut vars = vec![in alloc; 0u32; flags(frame).len()]?;
    let luma = Plane {
        samples: &samples,
        width: usize::from(header.width),
        height: usize::from(header.height),
    };
    let done = cdef::pass::directions(&mut dirs, &mut vars, &luma, small(header.depth));
    Ok(Directions { dirs, vars, done })
}

// Filters a plane and compares it: prints the error code, 0 where the work is done, the samples compared and those that differ.
// What is not filtered keeps what went in.
fn plane(
    rt: &(impl Print + AllocGlobal),
    frame: &Frame<'_>,
    component: Component,
    found: &Directions,
) -> io::Result<()> {
    let before = frame.before_capped(rt.alloc(), component)?;
    let mut filtered = before.clone()?;
    let done = applied(rt.alloc(), frame, component, found, &before, &mut filtered)?;
    let code = done.map_or_else(u32::from, |()| 0);
    let after = frame.after_capped(rt.alloc(), component)?;
    let different = filtered
        .iter()
        .zip(&after)
        .filter(|(ours, theirs)| ours != theirs)
        .count();
    print!(rt; " {code} {} {different}", filtered.len())
}

// Applying in a plane; in luma the directions must have been found.
fn applied(
    alloc: Global,
    frame: &Frame<'_>,
    component: Component,
    found: &Directions,
    before: &[u16],
    dst: &mut [u16],
) -> Result<Result<(), Refusal>, AllocError> {
    let header = frame.header;
    let mut pairs = frame.pairs(alloc, component)?;
    pairs.truncate(MOST_UNITS);
    let kind = match component {
        Component::Y => PlaneKind::Luma { vars: &found.vars },
        Component::U | Component::V => PlaneKind::Chroma {
            sx: small(header.sx),
            sy: small(header.sy),
        },
    };
    let picture = Picture {
        kind,
        depth: small(header.depth),
        width: usize::from(header.width),
        height: usize::from(header.height),
        skip: flags(frame),
        dirs: &found.dirs,
    };
    if component == Component::Y && found.done.is_err() {
        return Ok(found.done);
    }
    let damping = Some(SignalledDamping(header.damping));
    Ok(cdef::applying::apply_units(dst, before, &picture, &pairs, damping))
}
