// The numbers at the head of a file.
ghost use Rattle.std.specs.Prelude.{◌≡◌, ◌*◌, ◌^◌, ◌<◌, ◌≤◌, IfOk, IfErr, cond, eqb, min};
ghost use Rattle.testlib_frame.specs.declared.bytes.FrameError.TheVariants.{Length};

use crate::bytes::{Bytes, FrameError};

// Where a header is read capped, every larger number counts as this one, which no file here has.
const MOST: u32 = 1_000;

fn number(word: u32) -> u16
    ensures { result ≡ min word 1000 }
{
    word.min(MOST) as u16
}

// A number as a u8; every larger one is 255, which no call accepts.
pub fn small(number: u16) -> u8
    ensures { result ≡ min number 255 }
{
    number.min(255) as u8
}

// The sixteen numbers, but for the visible sides, the bits of an index and the base index, which nothing here needs.
#[derive(Clone, Copy, Debug, PartialEq, Eq)]
pub struct Header {
    pub depth: u16,
    pub sx: u16,
    pub sy: u16,
    // Kept as the file stores it: test_frames prints sx and sy of a monochrome frame too, which an Option of both would lose.
    pub monochrome: bool,
    pub width: u16,
    pub height: u16,
    pub damping: u8,
    pub units: Grid,
    pub blocks: Grid,
    // Kept as the file stores it: the sets and the indices stand in the file where it is off too.
    pub enabled: bool,
}

// Columns and rows, of units or of blocks.
#[derive(Clone, Copy, Debug, PartialEq, Eq)]
pub struct Grid {
    pub columns: u16,
    pub rows: u16,
}

impl Grid {
    fn read(file: &mut Bytes<'_>) -> Result<Self, FrameError> {
        Ok(Grid {
            columns: u16::try_from(file.word()?)?,
            rows: u16::try_from(file.word()?)?,
        })
    }

    fn read_capped(file: &mut Bytes<'_>) -> Result<Self, FrameError>
        ensures { IfErr result (λ e. e ≡ Length) }
    {
        Ok(Grid {
            columns: number(file.word()?),
            rows: number(file.word()?),
        })
    }

    pub fn count(self) -> usize
        ensures { result ≡ self.columns * self.rows }
    {
        usize::from(self.columns) * usize::from(self.rows)
    }
}

// A side of luma as a side of chroma.
fn halved(side: u16, flag: u16) -> u16 {
    if flag == 0 { side } else { side / 2 }
}

impl Header {
    // The numbers as they are. A depth, sx, sy or damping above 255, and a coded side or a count above 65,535, is an error.
    pub fn read(file: &mut Bytes<'_>) -> Result<Self, FrameError>
        ensures { IfOk result (λ h. (h.depth ≤ 255) × (h.sx ≤ 255) × (h.sy ≤ 255)) }
    {
        let depth = u8::try_from(file.word()?)?;
        let sx = u8::try_from(file.word()?)?;
        let sy = u8::try_from(file.word()?)?;
        let monochrome = file.word()? != 0;
        let width = u16::try_from(file.word()?)?;
        let height = u16::try_from(file.word()?)?;
        let _visible = file.take(8)?;
        let damping = u8::try_from(file.word()?)?;
        let _bits = file.word()?;
        let units = Grid::read(file)?;
        let blocks = Grid::read(file)?;
        let _base = file.word()?;
        let enabled = file.word()? % 2 == 1;
        Ok(Header {
            depth: u16::from(depth),
            sx: u16::from(sx),
            sy: u16::from(sy),
            monochrome,
            width,
            height,
            damping,
            units,
            blocks,
            enabled,
        })
    }

    // The numbers, and 1,000 for each that is larger; no number is an error. A damping above 255 is 255.
    pub fn read_capped(file: &mut Bytes<'_>) -> Result<Self, FrameError>
        ensures { IfErr result (λ e. e ≡ Length) }
    {
        let depth = number(file.word()?);
        let sx = number(file.word()?);
        let sy = number(file.word()?);
        let monochrome = file.word()? != 0;
        let width = number(file.word()?);
        let height = number(file.word()?);
        let _visible = file.take(8)?;
        let damping = small(number(file.word()?));
        let _bits = file.word()?;
        let units = Grid::read_capped(file)?;
        let blocks = Grid::read_capped(file)?;
        let _base = file.word()?;
        let enabled = number(file.word()?) % 2 == 1;
        Ok(Header {
            depth,
            sx,
            sy,
            monochrome,
            width,
            height,
            damping,
            units,
            blocks,
            enabled,
        })
    }

    // The samples of the luma plane, and of a chroma plane.
    pub fn luma_samples(&self) -> usize
        ensures bound { result < 2 ^ 32 }
        ensures area { result ≡ self.now.width * self.now.height }
    {
        usize::from(self.width) * usize::from(self.height)
    }

    pub fn chroma_samples(&self) -> usize
        ensures bound { result < 2 ^ 32 }
    {
        if self.monochrome {
            return 0;
        }
        usize::from(halved(self.width, self.sx)) * usize::from(halved(self.height, self.sy))
    }

    // The bytes of so many samples.
    pub fn bytes_of(&self, samples: usize) -> usize
        requires { samples < 2 ^ 32 }
        ensures { result ≡ cond (eqb self.now.depth 8) samples (2 * samples) }
    {
        if self.depth == 8 {
            samples
        } else {
            2 * samples
        }
    }
}
