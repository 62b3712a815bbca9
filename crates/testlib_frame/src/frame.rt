// The flags, the strengths and the samples of a file.
ghost use Rattle.std.specs.Prelude.{◌≡◌, ◌≤◌, ◌*◌, length, min, vec_len, IfOk, IfErr, ◌⊎◌};
ghost use Rattle.testlib_frame.specs.declared.bytes.FrameError.TheVariants.{Mark, Length};
ghost use Rattle.testlib_frame.specs.Planes.{plane_of, samples_in};

use crate::bytes::{Bytes, FrameError};
use crate::header::Header;
use cdef_spec::UnitPair;
use std::alloc::{AllocError, Global};

// The most samples of a plane that `before_capped` and `after_capped` read; what follows them is left out.
const MOST_SAMPLES: usize = 307_200;

// Which plane of a frame.
#[derive(Clone, Copy, Debug, PartialEq, Eq)]
pub enum Component {
    Y,
    U,
    V,
}

// The planes of a frame as a file stores them. Of a monochrome frame U and V are empty.
#[derive(Clone, Copy)]
struct Planes<'a> {
    y: &'a [u8],
    u: &'a [u8],
    v: &'a [u8],
}

impl<'a> Planes<'a> {
    fn read(file: &mut Bytes<'a>, header: Header) -> Result<Self, FrameError>
        ensures { IfErr result (λ e. e ≡ Length) }
    {
        let luma = header.bytes_of(header.luma_samples());
        let chroma = header.bytes_of(header.chroma_samples());
        Ok(Planes {
            y: file.take(luma)?,
            u: file.take(chroma)?,
            v: file.take(chroma)?,
        })
    }

    fn of(&self, component: Component) -> &'a [u8]
        ensures { result.now ≡ plane_of component self.now }
    {
        match component {
            Component::Y => self.y,
            Component::U => self.u,
            Component::V => self.v,
        }
    }
}

// A frame: per block a skip flag, and the planes before and after CDEF. A set is primary << 2 | coded secondary; indices has the set of each unit.
#[derive(Clone, Copy)]
pub struct Frame<'a> {
    pub header: Header,
    luma_sets: &'a [u8],
    chroma_sets: &'a [u8],
    indices: &'a [u8],
    pub skip: &'a [u8],
    before: Planes<'a>,
    after: Planes<'a>,
}

// The pair of a set; a coded secondary strength of 3 means 4.
fn pair(set: u8) -> UnitPair {
    UnitPair {
        primary: set / 4,
        secondary: match set % 4 {
            3 => 4,
            coded => coded,
        },
    }
}

// What stands behind the mark of a file.
fn marked(bytes: &[u8]) -> Result<Bytes<'_>, FrameError>
    ensures { IfErr result (λ e. (e ≡ Mark) ⊎ (e ≡ Length)) }
{
    let mut file = Bytes::new(bytes);
    if file.take(8)? != b"CDEFRAW1".as_slice() {
        return Err(FrameError::Mark);
    }
    Ok(file)
}

impl<'a> Frame<'a> {
    // The frame of a file, with the header as `Header::read` reads it.
    pub fn parse(bytes: &'a [u8]) -> Result<Self, FrameError>
        ensures skips { IfOk result (λ f. length f.skip.now ≡ f.header.blocks.columns * f.header.blocks.rows) }
        ensures bytes { IfOk result (λ f. (f.header.depth ≤ 255) × (f.header.sx ≤ 255) × (f.header.sy ≤ 255)) }
    {
        let mut file = marked(bytes)?;
        let header = Header::read(&mut file)?;
        Frame::behind(header, file)
    }

    // The frame of a file, with the header as `Header::read_capped` reads it.
    pub fn parse_capped(bytes: &'a [u8]) -> Result<Self, FrameError>
        ensures error { IfErr result (λ e. (e ≡ Mark) ⊎ (e ≡ Length)) }
        ensures skips { IfOk result (λ f. length f.skip.now ≡ f.header.blocks.columns * f.header.blocks.rows) }
    {
        let mut file = marked(bytes)?;
        let header = Header::read_capped(&mut file)?;
        Frame::behind(header, file)
    }

    // The frame of a header and of what stands behind it.
    fn behind(header: Header, mut file: Bytes<'a>) -> Result<Self, FrameError>
        ensures skips { IfOk result (λ f. length f.skip.now ≡ f.header.blocks.columns * f.header.blocks.rows) }
        ensures header { IfOk result (λ f. f.header ≡ header) }
        ensures error { IfErr result (λ e. e ≡ Length) }
    {
        let frame = Frame {
            header,
            luma_sets: file.take(8)?,
            chroma_sets: file.take(8)?,
            indices: file.take(header.units.count())?,
            skip: file.take(header.blocks.count())?,
            before: Planes::read(&mut file, header)?,
            after: Planes::read(&mut file, header)?,
        };
        file.end()?;
        Ok(frame)
    }

    // The set at an index; 0 where no index was signalled, or CDEF is off in the sequence.
    fn set(&self, component: Component, index: u8) -> u8 {
        if !self.header.enabled {
            return 0;
        }
        let sets = if component == Component::Y {
            self.luma_sets
        } else {
            self.chroma_sets
        };
        sets.get(usize::from(index)).copied().unwrap_or(0)
    }

    // The pair of each unit.
    pub fn pairs(&self, alloc: Global, component: Component) -> Result<Vec<UnitPair>, AllocError>
        ensures { IfOk result (λ pairs. vec_len pairs ≡ length self.now.indices.now) }
    {
        self.indices
            .iter()
            .map(|&index| pair(self.set(component, index)))
            .collect(alloc)
    }

    // The samples of a plane before CDEF, and after it.
    pub fn before(&self, alloc: Global, component: Component) -> Result<Vec<u16>, AllocError>
        ensures { IfOk result (λ samples. vec_len samples ≡ samples_in self.now.header.depth (length (plane_of component self.now.before))) }
    {
        self.samples(alloc, self.before.of(component))
    }

    pub fn after(&self, alloc: Global, component: Component) -> Result<Vec<u16>, AllocError>
        ensures { IfOk result (λ samples. vec_len samples ≡ samples_in self.now.header.depth (length (plane_of component self.now.after))) }
    {
        self.samples(alloc, self.after.of(component))
    }

    // The samples of a plane before CDEF, and after it, the first MOST_SAMPLES at most.
    pub fn before_capped(&self, alloc: Global, component: Component) -> Result<Vec<u16>, AllocError>
        ensures { IfOk result (λ samples. vec_len samples ≡ min 307200 (samples_in self.now.header.depth (length (plane_of component self.now.before)))) }
    {
        self.samples(alloc, self.capped(self.before.of(component)))
    }

    pub fn after_capped(&self, alloc: Global, component: Component) -> Result<Vec<u16>, AllocError>
        ensures { IfOk result (λ samples. vec_len samples ≡ min 307200 (samples_in self.now.header.depth (length (plane_of component self.now.after)))) }
    {
        self.samples(alloc, self.capped(self.after.of(component)))
    }

    // The bytes of a plane's first samples, MOST_SAMPLES at most.
    fn capped<'b>(&self, bytes: &'b [u8]) -> &'b [u8]
        ensures { samples_in self.now.header.depth (length result.now) ≡ min 307200 (samples_in self.now.header.depth (length bytes.now)) }
    {
        bytes
            .get(..self.header.bytes_of(MOST_SAMPLES))
            .unwrap_or(bytes)
    }

    // One byte a sample at depth 8, else two, the low one first.
    fn samples(&self, alloc: Global, bytes: &[u8]) -> Result<Vec<u16>, AllocError>
        ensures { IfOk result (λ samples. vec_len samples ≡ samples_in self.now.header.depth (length bytes.now)) }
    {
        if self.header.depth == 8 {
            return bytes.iter().map(|&sample| u16::from(sample)).collect(alloc);
        }
        let (pairs, _) = bytes.as_chunks();
        pairs
            .iter()
            .map(|&pair| u16::from_le_bytes(pair))
            .collect(alloc)
    }
}
