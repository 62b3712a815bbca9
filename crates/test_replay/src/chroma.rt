// Applying in chroma to a picture of 8 by 8 samples of luma.
use crate::case::{Case, stored};
use cdef_spec::{Picture, PlaneKind, SignalledDamping};
use std::alloc::AllocError;
use testlib_lines::numbers::{LenientNumbers, NONE};

// The most samples of a plane that a case can have here; a line's further ones are passed over.
const MOST: usize = 64;

// depth sx sy dir pri sec damping place code sample, and the plane: the sample at a place after applying;
// dir is luma's, and the damping is 0 where none is stated
#[derive(Drop)]
pub struct ApplyChroma {
    depth: u8,
    sx: u8,
    sy: u8,
    dir: u8,
    pri: u8,
    sec: u8,
    damping: Option<SignalledDamping>,
    place: usize,
    code: u64,
    sample: u64,
    plane: Vec<u16>,
    dst: Vec<u16>,
}

fn damping(stored: u8) -> Option<SignalledDamping> {
    match stored {
        0 => None,
        _ => Some(SignalledDamping(stored)),
    }
}

// The sample at a place, NONE past the end of the plane: so is what a line stores that has no number there.
fn sample_at(plane: &[u16], place: usize) -> u64 {
    plane.get(place).map_or(NONE, |sample| u64::from(*sample))
}

impl Case for ApplyChroma {
    fn parse(mut line: LenientNumbers<'_>) -> Result<Self, AllocError> {
        let depth = line.byte();
        let sx = line.byte();
        let sy = line.byte();
        let dir = line.byte();
        let pri = line.byte();
        let sec = line.byte();
        let damping = damping(line.byte());
        let place = line.size();
        let code = line.number();
        let sample = line.number();
        let plane = line.samples_up_to(MOST)?;
        let dst = plane.clone()?;
        Ok(ApplyChroma {
            depth,
            sx,
            sy,
            dir,
            pri,
            sec,
            damping,
            place,
            code,
            sample,
            plane,
            dst,
        })
    }

    fn holds(self) -> bool {
        let mut dst = self.dst;
        let picture = Picture {
            kind: PlaneKind::Chroma {
                sx: self.sx,
                sy: self.sy,
            },
            depth: self.depth,
            width: 8,
            height: 8,
            skip: &[0],
            dirs: &[self.dir],
        };
        // Kept as two lists: the C entries take them so, and this tests it.
        let done = cdef_lists::apply_units(
            &mut dst,
            &self.plane,
            &picture,
            &[self.pri],
            &[self.sec],
            self.damping,
        );
        stored(done) == (self.code, ()) && sample_at(&dst, self.place) == self.sample
    }
}
