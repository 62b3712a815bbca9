// The calls on two blocks.
use crate::case::{Case, stored};
use cdef_blocks::distance;
use cdef_spec::Plane;
use std::alloc::AllocError;
use testlib_lines::numbers::LenientNumbers;

// The most samples of both planes that a case can have here; a line with more has half as many of the original,
// and of the other one as many as this.
const MOST: usize = 8400;

// depth width height x y code answer, and the original plane and the other one, as many samples each
#[derive(Drop)]
struct Planes {
    depth: u8,
    width: usize,
    height: usize,
    x: usize,
    y: usize,
    stored: (u64, i64),
    samples: Vec<u16>,
}

impl Planes {
    fn parse(mut line: LenientNumbers<'_>) -> Result<Self, AllocError> {
        Ok(Planes {
            depth: line.byte(),
            width: line.size(),
            height: line.size(),
            x: line.size(),
            y: line.size(),
            stored: (line.number(), line.number() as i64),
            samples: line.samples_up_to(MOST + MOST / 2)?,
        })
    }

    fn original_and_other(&self) -> (Plane<'_>, &[u16]) {
        let (samples, other) = self.samples.split_at(self.samples.len().min(MOST) / 2);
        let original = Plane {
            samples,
            width: self.width,
            height: self.height,
        };
        (original, other)
    }
}

// The answer is the weighted distance.
#[derive(Drop)]
pub struct Distance(Planes);

impl Case for Distance {
    fn parse(line: LenientNumbers<'_>) -> Result<Self, AllocError> {
        Ok(Distance(Planes::parse(line)?))
    }

    fn holds(self) -> bool {
        let planes = &self.0;
        let (original, other) = planes.original_and_other();
        stored(distance::distance(&original, other, planes.x, planes.y, planes.depth))
            == planes.stored
    }
}

// The answer is the sum of squared differences.
#[derive(Drop)]
pub struct Squares(Planes);

impl Case for Squares {
    fn parse(line: LenientNumbers<'_>) -> Result<Self, AllocError> {
        Ok(Squares(Planes::parse(line)?))
    }

    fn holds(self) -> bool {
        let planes = &self.0;
        let (original, other) = planes.original_and_other();
        stored(distance::squares(&original, other, planes.x, planes.y, planes.depth))
            == planes.stored
    }
}
