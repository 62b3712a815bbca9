// What makes a picture, and its samples and pairs.
ghost use Rattle.std.specs.Prelude.{◌≡◌, ◌*◌, ◌≤◌, ◌<◌, IfOk, vec_len};

use crate::samples;
use cdef_spec::{UnitPair, Visible};
use std::alloc::{AllocError, Global};

pub const WIDTH: usize = 72;

pub const HEIGHT: usize = 136;

pub const UNITS: usize = 6;

pub const VISIBLE: Visible = Visible {
    width: 70,
    height: 131,
};

// Which plane of a picture it is; of chroma, with the subsampling flags.
#[derive(Clone, Copy, Debug, PartialEq, Eq)]
pub enum Layout {
    Luma,
    Chroma { sx: u8, sy: u8 },
}

// The directions of the blocks: those of the luma picture with the same grain, or each of the eight in turn.
#[derive(Clone, Copy, Debug, PartialEq, Eq)]
pub enum Directions {
    Found,
    EachInTurn,
}

// What is printed of a picture, and what makes it; the grain also chooses the pairs.
#[derive(Clone, Copy)]
pub struct Picture {
    pub title: &'static str,
    pub layout: Layout,
    pub depth: u8,
    pub grain: u8,
    pub directions: Directions,
}

impl Picture {
    pub fn is_luma(&self) -> bool {
        self.layout == Layout::Luma
    }

    // Its width and its samples.
    fn shape(&self) -> (usize, usize)
        ensures { 0 < result.0 }
    {
        match self.layout {
            Layout::Luma => (WIDTH, WIDTH * HEIGHT),
            Layout::Chroma { sx, sy } => {
                let width = if sx == 0 { WIDTH } else { WIDTH / 2 };
                let height = if sy == 0 { HEIGHT } else { HEIGHT / 2 };
                (width, width * height)
            }
        }
    }

    // The seed of its grain, which in chroma is not luma's.
    fn seed(&self) -> u16
        ensures { result ≤ 455 }
    {
        let grain = u16::from(self.grain);
        if self.is_luma() { grain } else { grain + 200 }
    }

    pub fn snapshot(&self, alloc: Global) -> Result<Vec<u16>, AllocError> {
        let (width, count) = self.shape();
        samples::plane(alloc, count, width, self.depth, self.seed())
    }

    // The picture that it was before coding.
    pub fn original(&self, alloc: Global) -> Result<Vec<u16>, AllocError> {
        let (width, count) = self.shape();
        samples::plane(alloc, count, width, self.depth, self.seed() + 100)
    }

    // The luma picture with the same grain.
    pub fn luma(&self, alloc: Global) -> Result<Vec<u16>, AllocError>
        ensures { IfOk result (λ samples. vec_len samples ≡ WIDTH * HEIGHT) }
    {
        samples::plane(
            alloc,
            WIDTH * HEIGHT,
            WIDTH,
            self.depth,
            u16::from(self.grain),
        )
    }

    // The trial number of a unit; each of the twelve comes up in some picture.
    pub fn trial(&self, unit: usize) -> usize
        ensures { result < 12 }
    {
        (unit % 12 * 5 + usize::from(self.grain) * 2 + 1) % 12
    }

    pub fn pair(&self, unit: usize) -> UnitPair {
        arith_trials::trial_pair(self.trial(unit))
    }

    // The pair of each unit.
    pub fn pairs(&self, alloc: Global) -> Result<Vec<UnitPair>, AllocError>
        ensures { IfOk result (λ pairs. vec_len pairs ≡ UNITS) }
    {
        (0..UNITS).map(|unit| self.pair(unit)).collect(alloc)
    }
}
