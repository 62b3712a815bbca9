// The calls on a block.
ghost use Rattle.std.specs.Prelude.{◌≤◌};

use crate::case::{Case, stored};
use cdef_spec::{Block, FilterParams, Plane, TrialWay, WorkingDamping};
use std::alloc::AllocError;
use testlib_lines::numbers::LenientNumbers;

// The most samples of a plane or of a destination that a case can have here.
const MOST: usize = 8192;

// The most places that a trial can have here.
const MOST_PLACES: usize = 1024;

// depth width height x y code direction variance, and the plane
#[derive(Drop)]
pub struct Direction {
    depth: u8,
    width: usize,
    height: usize,
    x: usize,
    y: usize,
    stored: (u64, (u64, u64)),
    plane: Vec<u16>,
}

impl Case for Direction {
    fn parse(mut line: LenientNumbers<'_>) -> Result<Self, AllocError> {
        Ok(Direction {
            depth: line.byte(),
            width: line.size(),
            height: line.size(),
            x: line.size(),
            y: line.size(),
            stored: (line.number(), (line.number(), line.number())),
            plane: line.samples_up_to(MOST)?,
        })
    }

    fn holds(self) -> bool {
        let plane = Plane {
            samples: &self.plane,
            width: self.width,
            height: self.height,
        };
        let found = cdef_blocks::direction::direction(&plane, self.x, self.y, self.depth);
        stored(found.map(|found| (u64::from(found.direction), u64::from(found.variance))))
            == self.stored
    }
}

fn block(line: &mut LenientNumbers<'_>) -> Block {
    Block {
        x: line.size(),
        y: line.size(),
        width: line.size(),
        height: line.size(),
    }
}

// A side, 0 where it is above 8,192.
fn side(stored: usize) -> usize
    ensures { result ≤ 8192 }
{
    if MOST < stored {
        return 0;
    }
    stored
}

fn area(width: usize, height: usize) -> usize {
    side(width) * side(height)
}

// As many samples as two sides say, or as the line has and a case can have.
fn samples(
    line: &mut LenientNumbers<'_>,
    width: usize,
    height: usize,
) -> Result<Vec<u16>, AllocError> {
    line.samples_up_to(area(width, height).min(MOST))
}

// depth width height x y bw bh y0 dst_rows pri sec dir damping code,
// and the plane, the destination before and the destination after, as large as the sizes say
#[derive(Drop)]
pub struct Filter {
    width: usize,
    height: usize,
    block: Block,
    y0: usize,
    params: FilterParams,
    code: u64,
    plane: Vec<u16>,
    before: Vec<u16>,
    after: Vec<u64>,
}

impl Case for Filter {
    fn parse(mut line: LenientNumbers<'_>) -> Result<Self, AllocError> {
        let depth = line.byte();
        let width = line.size();
        let height = line.size();
        let block = block(&mut line);
        let y0 = line.size();
        let rows = line.size();
        let params = FilterParams {
            pri: line.word(),
            sec: line.word(),
            dir: line.byte(),
            damping: WorkingDamping(line.byte()),
            depth,
        };
        let code = line.number();
        let plane = samples(&mut line, width, height)?;
        let before = samples(&mut line, width, rows)?;
        // One more than is compared, which tells a longer list.
        let after = line.rest(before.len().saturating_add(1))?;
        Ok(Filter {
            width,
            height,
            block,
            y0,
            params,
            code,
            plane,
            before,
            after,
        })
    }

    fn holds(self) -> bool {
        let mut dst = self.before;
        let plane = Plane {
            samples: &self.plane,
            width: self.width,
            height: self.height,
        };
        let done = cdef_blocks::filter::filter_block(
            &mut dst,
            self.y0,
            &plane,
            self.block,
            self.params,
        );
        stored(done) == (self.code, ()) && is_stored(&dst, 64, &self.after, 0)
    }
}

// depth width height x y bw bh luma variance dir damping places held code,
// and the plane, and the twelve trial blocks where the code is 0
#[derive(Drop)]
pub struct Trial {
    depth: u8,
    width: usize,
    height: usize,
    block: Block,
    way: TrialWay,
    dir: u8,
    damping: WorkingDamping,
    places: Vec<u16>,
    held: u64,
    code: u64,
    plane: Vec<u16>,
    blocks: Vec<u64>,
}

fn way(line: &mut LenientNumbers<'_>) -> TrialWay {
    let luma = line.number();
    let variance = line.word();
    match luma {
        0 => TrialWay::Chroma,
        _ => TrialWay::Luma(variance),
    }
}

impl Case for Trial {
    fn parse(mut line: LenientNumbers<'_>) -> Result<Self, AllocError> {
        let depth = line.byte();
        let width = line.size();
        let height = line.size();
        let block = block(&mut line);
        let way = way(&mut line);
        let dir = line.byte();
        let damping = WorkingDamping(line.byte());
        let count = line.size().min(MOST_PLACES);
        let held = line.number();
        let places = vec![in line.alloc(); (held % 0x1_0000) as u16; count]?;
        Ok(Trial {
            depth,
            width,
            height,
            block,
            way,
            dir,
            damping,
            places,
            held,
            code: line.number(),
            plane: samples(&mut line, width, height)?,
            blocks: line.rest(MOST_PLACES + 1)?,
        })
    }

    fn holds(self) -> bool {
        let each = self.stored_each();
        let mut out = self.places;
        let plane = Plane {
            samples: &self.plane,
            width: self.width,
            height: self.height,
        };
        let done = cdef_blocks::trial::trial(
            &mut out,
            &plane,
            self.block,
            self.way,
            self.dir,
            self.damping,
            self.depth,
        );
        stored(done) == (self.code, ()) && is_stored(&out, each, &self.blocks, self.held)
    }
}

impl Trial {
    // The samples of each trial block that a line has stored: none where the call is rejected.
    fn stored_each(&self) -> usize {
        if self.code == 0 {
            return area(self.block.width, self.block.height);
        }
        0
    }
}

// A list in groups of 64: whether the first `each` of each 64 are those of the blocks in order and no more, and every other is `held`.
fn is_stored(out: &[u16], each: usize, blocks: &[u64], held: u64) -> bool {
    let mut left = blocks.iter();
    let same = out.iter().enumerate().all(|(k, &sample)| {
        let expected = if k % 64 < each {
            left.next().copied()
        } else {
            Some(held)
        };
        expected == Some(u64::from(sample))
    });
    same && left.next().is_none()
}
