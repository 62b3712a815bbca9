// What applying returns for a list of one pair so many times, for a flat luma picture of 64 by 128: two units.
use cdef_spec::{Picture, PlaneKind, Refusal, SignalledDamping, UnitPair};
use std::alloc::{AllocError, Global};
use std::io;

// How often each pair stands in its list; the last are more pairs than any picture has units.
const LISTS: [(usize, UnitPair); 11] = [
    (0, FIRST),
    (1, FIRST),
    (2, FIRST),
    (3, FIRST),
    (2, PRIMARY_ABOVE),
    (2, SECONDARY_ABOVE),
    (3, BOTH_ABOVE),
    (2, FIRST),
    (4096, FIRST),
    (4097, FIRST),
    (4100, FIRST),
];

const FIRST: UnitPair = UnitPair {
    primary: 4,
    secondary: 2,
};

// Strengths out of range.
const PRIMARY_ABOVE: UnitPair = UnitPair {
    primary: 16,
    secondary: 0,
};

const SECONDARY_ABOVE: UnitPair = UnitPair {
    primary: 0,
    secondary: 3,
};

const BOTH_ABOVE: UnitPair = UnitPair {
    primary: 16,
    secondary: 3,
};

pub fn lines(rt: &(impl Print + AllocGlobal)) -> io::Result<()> {
    for (times, pair) in LISTS {
        let primary = pair.primary;
        let secondary = pair.secondary;
        print!(rt; "pair {primary}, {secondary}, times {times}: ")?;
        match applied(rt.alloc(), times, pair)? {
            Ok(()) => println!(rt; "done")?,
            Err(refusal) => println!(rt; "error code {}", u32::from(refusal))?,
        }
    }
    Ok(())
}

fn applied(alloc: Global, times: usize, pair: UnitPair) -> Result<Result<(), Refusal>, AllocError> {
    let pairs = vec![in alloc; pair; times]?;
    let picture = Picture {
        kind: PlaneKind::Luma { vars: &[0; 128] },
        depth: 8,
        width: 64,
        height: 128,
        skip: &[0; 128],
        dirs: &[0; 128],
    };
    Ok(cdef::applying::apply_units(
        &mut [0; 8192],
        &[100; 8192],
        &picture,
        &pairs,
        Some(SignalledDamping(5)),
    ))
}
