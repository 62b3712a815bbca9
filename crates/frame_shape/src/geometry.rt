// Blocks, units and the visible part of a plane.
// Kept as clauses, by ≤ 512 and bx ≤ 512: with `Place { by, bx, ghost few }` each call reads `q.block_of(Place { by, bx })` for `q.block_of(by, bx)`, and each caller proves the same bounds of it.
ghost use Rattle.std.specs.Prelude.{◌≡◌, ◌+◌, ◌*◌, ◌/◌, ◌≤◌, ◌<◌, ◌^◌, length};
ghost use Rattle.cdef_spec.specs.Picture.{sub_x, sub_y, plane_width, plane_height, block_width, block_height, visible_rows, visible_cols, block_at, unit_at, units, counted};
ghost use Rattle.frame_shape.specs.Frame.{block_of, visible_part};
ghost use Rattle.frame_shape.specs.Shape.{is_luma};
ghost use Rattle.frame_shape.specs.Checked.{shaped_in, listed_in};

use crate::checked::{ListedPicture, ShapedPicture};
use cdef_spec::{Block, PlaneKind, Visible};

// A side of n luma samples in a plane's own samples.
fn subsampled(n: usize, flag: u8) -> usize
    requires { flag < 2 }
    ensures { (result ≡ n / 2 ^ flag) × (result ≤ n) }
{
    n >> flag
}

// The same for a visible side: rounded up.
fn visible_side(n: usize, flag: u8) -> usize
    requires { (n ≤ 4096) × (flag < 2) }
    ensures { result ≡ (n + flag) / 2 ^ flag }
{
    subsampled(n + flag as usize, flag)
}

impl<'a> ShapedPicture<'a> {
    // The subsampling flags, horizontal and vertical: both 0 in luma.
    fn subsampling(&self) -> (u8, u8)
        ensures values { (result.0 ≡ sub_x (shaped_in self.now).kind) × (result.1 ≡ sub_y (shaped_in self.now).kind) }
        ensures flags { (result.0 < 2) × (result.1 < 2) }
    {
        match self.picture.kind {
            PlaneKind::Luma { .. } => (0, 0),
            PlaneKind::Chroma { sx, sy } => (sx, sy),
        }
    }

    // Whether the plane is luma.
    pub fn is_luma(&self) -> bool
        ensures { result ≡ is_luma (shaped_in self.now).kind }
    {
        matches!(self.picture.kind, PlaneKind::Luma { .. })
    }

    // The plane's own sides.
    pub fn plane_width(&self) -> usize
        ensures { result ≡ plane_width (shaped_in self.now) }
    {
        subsampled(self.picture.width, self.subsampling().0)
    }

    pub fn plane_height(&self) -> usize
        ensures { result ≡ plane_height (shaped_in self.now) }
    {
        subsampled(self.picture.height, self.subsampling().1)
    }

    // The visible part of the plane, in its own samples.
    pub fn visible_rows(&self, v: Visible) -> usize
        requires { v.height ≤ 4096 }
        ensures { result ≡ visible_rows (shaped_in self.now) v }
    {
        visible_side(v.height, self.subsampling().1)
    }

    pub fn visible_cols(&self, v: Visible) -> usize
        requires { v.width ≤ 4096 }
        ensures { result ≡ visible_cols (shaped_in self.now) v }
    {
        visible_side(v.width, self.subsampling().0)
    }

    // The part of the plane that belongs to the luma block in row by and column bx of the blocks.
    pub fn block_of(&self, by: usize, bx: usize) -> Block
        requires { (by ≤ 512) × (bx ≤ 512) }
        ensures { result ≡ block_of (shaped_in self.now) by bx }
    {
        let (sx, sy) = self.subsampling();
        let width = subsampled(8, sx);
        let height = subsampled(8, sy);
        Block {
            x: bx * width,
            y: by * height,
            width,
            height,
        }
    }

    // The visible part of a block that begins inside the visible area.
    pub fn visible_part(&self, v: Visible, by: usize, bx: usize) -> Block
        requires seen { (v.width ≤ 4096) × (v.height ≤ 4096) }
        requires few { (by ≤ 512) × (bx ≤ 512) }
        requires begun { (by * block_height (shaped_in self.now) ≤ visible_rows (shaped_in self.now) v) × (bx * block_width (shaped_in self.now) ≤ visible_cols (shaped_in self.now) v) }
        ensures { result ≡ visible_part (shaped_in self.now) v by bx }
    {
        let b = self.block_of(by, bx);
        let rows = self.visible_rows(v) - b.y;
        let cols = self.visible_cols(v) - b.x;
        Block {
            x: b.x,
            y: b.y,
            width: b.width.min(cols),
            height: b.height.min(rows),
        }
    }

    // The index of a block.
    pub fn block_at(&self, by: usize, bx: usize) -> usize
        requires { (by ≤ 512) × (bx ≤ 512) }
        ensures { result ≡ block_at (shaped_in self.now) by bx }
    {
        by * (self.picture.width / 8) + bx
    }

    // The number of units.
    pub fn units(&self) -> usize
        ensures { (result ≡ units (shaped_in self.now)) × (result ≤ 4096) }
    {
        self.picture.height.div_ceil(64) * self.picture.width.div_ceil(64)
    }

    // The index of a block's unit.
    pub fn unit_at(&self, by: usize, bx: usize) -> usize
        requires { (by ≤ 512) × (bx ≤ 512) }
        ensures { result ≡ unit_at (shaped_in self.now) by bx }
    {
        by / 8 * self.picture.width.div_ceil(64) + bx / 8
    }
}

impl<'a> ListedPicture<'a> {
    // Whether a block counts: it is not skipped and begins inside the visible part.
    pub fn counted(&self, v: Visible, by: usize, bx: usize) -> bool
        requires seen { (v.width ≤ 4096) × (v.height ≤ 4096) }
        requires inside { (by ≤ 512) × (bx ≤ 512) × (block_at (listed_in self.now) by bx < length self.now.shaped.picture.skip.now) }
        ensures { result ≡ counted (listed_in self.now) v by bx }
    {
        if self.shaped.picture.skip[self.shaped.block_at(by, bx)] != 0 {
            return false;
        }
        let b = self.shaped.block_of(by, bx);
        b.y < self.shaped.visible_rows(v) && b.x < self.shaped.visible_cols(v)
    }
}
