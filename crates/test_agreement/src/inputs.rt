// What the three calls on a picture are given.
use cdef_spec::{Plane, PlaneKind, UnitPair};
use std::alloc::{AllocError, Global};
use testlib_pictures::blocks;
use testlib_pictures::picture::{Directions, HEIGHT, Layout, Picture, WIDTH};

// The planes after and before coding, a skip flag, a direction and a variance per block, and the pair of each unit.
#[derive(Drop)]
pub struct Inputs {
    pub snapshot: Vec<u16>,
    pub original: Vec<u16>,
    pub pairs: Vec<UnitPair>,
    skip: Vec<u8>,
    dirs: Vec<u8>,
    vars: Vec<u32>,
}

impl Inputs {
    // The directions are those of the luma picture with the same grain, or each of the eight in turn.
    pub fn new(alloc: Global, picture: &Picture) -> Result<Self, AllocError> {
        let mut dirs = blocks::directions_in_turn(alloc)?;
        let mut vars = vec![in alloc; 400_000u32; blocks::BLOCKS]?;
        if picture.directions == Directions::Found {
            let luma = picture.luma(alloc)?;
            let plane = Plane {
                samples: &luma,
                width: WIDTH,
                height: HEIGHT,
            };
            // A refusal would leave both lists as they are, and other totals.
            cdef::pass::directions(&mut dirs, &mut vars, &plane, picture.depth).ok();
        }
        Ok(Inputs {
            snapshot: picture.snapshot(alloc)?,
            original: picture.original(alloc)?,
            pairs: picture.pairs(alloc)?,
            skip: blocks::skips(alloc)?,
            dirs,
            vars,
        })
    }

    // The picture as the calls take it.
    pub fn of(&self, picture: &Picture) -> cdef_spec::Picture<'_> {
        let kind = match picture.layout {
            Layout::Luma => PlaneKind::Luma { vars: &self.vars },
            Layout::Chroma { sx, sy } => PlaneKind::Chroma { sx, sy },
        };
        cdef_spec::Picture {
            kind,
            depth: picture.depth,
            width: WIDTH,
            height: HEIGHT,
            skip: &self.skip,
            dirs: &self.dirs,
        }
    }

    // The primary strengths of the units, and the secondary ones.
    pub fn primaries(&self, alloc: Global) -> Result<Vec<u8>, AllocError> {
        self.pairs.iter().map(|pair| pair.primary).collect(alloc)
    }

    pub fn secondaries(&self, alloc: Global) -> Result<Vec<u8>, AllocError> {
        self.pairs.iter().map(|pair| pair.secondary).collect(alloc)
    }
}
