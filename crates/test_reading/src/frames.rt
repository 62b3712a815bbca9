// Frames that are made here, of one unit and one block but where said, parsed both ways. The bytes of their planes count up from 0, to 250 and again.
use std::alloc::{AllocError, Global};
use std::io;
use testlib_frame::bytes::{Bytes, FrameError};
use testlib_frame::frame::{Component, Frame};
use testlib_frame::header::Header;

// The sixteen numbers of a monochrome frame.
fn monochrome(depth: u32, width: u32, height: u32, flags: u32) -> [u32; 16] {
    [
        depth, 0, 0, 1, width, height, width, height, 3, 0, 1, 1, 1, 1, 0, flags,
    ]
}

// A file: its sixteen numbers, sets that are primary 1 and secondary 0 each, and so many bytes of planes.
fn file(alloc: Global, numbers: [u32; 16], bytes: usize) -> Result<Vec<u8>, AllocError> {
    let mut file = b"CDEFRAW1".to_vec(alloc)?;
    for number in numbers {
        file.extend_from_slice(&number.to_le_bytes())?;
    }
    file.extend_from_slice(&[4; 16])?;
    file.extend_from_slice(&[0; 2])?;
    let planes: Vec<u8> = (0..bytes).map(|k| (k % 251) as u8).collect(alloc)?;
    file.extend_from_slice(&planes)?;
    Ok(file)
}

// Prints a frame's numbers, its pair, and how many samples its luma planes have, whole and capped.
fn print(rt: &(impl Print + AllocGlobal), frame: Result<Frame<'_>, FrameError>) -> io::Result<()> {
    let frame = match frame {
        Ok(frame) => frame,
        Err(fault) => return println!(rt; "{fault}"),
    };
    let (alloc, header) = (rt.alloc(), frame.header);
    let pairs = frame.pairs(alloc, Component::Y)?;
    let (before, after) = (
        frame.before(alloc, Component::Y)?,
        frame.after(alloc, Component::Y)?,
    );
    let capped = (
        frame.before_capped(alloc, Component::Y)?,
        frame.after_capped(alloc, Component::Y)?,
    );
    println!(rt;
        "{} by {}, depth {}, primary {:?}: {} and {} samples, capped {} and {}",
        header.width,
        header.height,
        header.depth,
        pairs.first().map(|pair| pair.primary),
        before.len(),
        after.len(),
        capped.0.len(),
        capped.1.len()
    )
}

fn both(rt: &(impl Print + AllocGlobal), file: &[u8]) -> io::Result<()> {
    print(rt, Frame::parse(file))?;
    print(rt, Frame::parse_capped(file))
}

// Prints a header, read by itself both ways.
fn headers(rt: &(impl Print + AllocGlobal), numbers: [u32; 16]) -> io::Result<()> {
    let file = file(rt.alloc(), numbers, 0)?;
    let (_mark, numbers) = file.split_at_checked(8).unwrap_or_default();
    println!(rt; "header: {:?}", Header::read(&mut Bytes::new(numbers)))?;
    println!(rt;
        "capped: {:?}",
        Header::read_capped(&mut Bytes::new(numbers))
    )
}

// Prints the first sample of each plane of a frame, before CDEF and after it.
fn planes(rt: &(impl Print + AllocGlobal), file: &[u8]) -> io::Result<()> {
    let frame = match Frame::parse(file) {
        Ok(frame) => frame,
        Err(fault) => return println!(rt; "{fault}"),
    };
    for component in [Component::Y, Component::U, Component::V] {
        let before = frame.before(rt.alloc(), component)?;
        let after = frame.after(rt.alloc(), component)?;
        println!(rt;
            "{component:?}: {:?} and {:?}",
            before.first(),
            after.first()
        )?;
    }
    Ok(())
}

pub fn read(rt: &(impl Print + AllocGlobal)) -> io::Result<()> {
    let alloc = rt.alloc();
    both(rt, &file(alloc, monochrome(8, 640, 488, 1001), 624_640)?)?;
    both(rt, &file(alloc, monochrome(8, 1008, 8, 1), 16_128)?)?;
    both(rt, &file(alloc, monochrome(300, 8, 8, 1), 256)?)?;
    both(rt, &file(alloc, monochrome(10, 8, 8, 1), 255)?)?;
    both(rt, b"CDEFRAW2")?;
    headers(
        rt,
        [12, 1, 2, 0, 16, 24, 15, 23, 5, 3, 10, 11, 13, 14, 99, 7],
    )?;
    headers(rt, monochrome(8, 1008, 65_535, 1))?;
    headers(rt, monochrome(8, 8, 65_536, 1))?;
    // 4:2:2: the planes of chroma have half of the columns.
    planes(
        rt,
        &file(alloc, [8, 1, 0, 0, 8, 8, 8, 8, 3, 0, 1, 1, 1, 1, 0, 1], 256)?,
    )?;
    planes(
        rt,
        &file(
            alloc,
            [10, 1, 1, 0, 8, 8, 8, 8, 3, 0, 1, 1, 1, 1, 0, 1],
            384,
        )?,
    )
}
