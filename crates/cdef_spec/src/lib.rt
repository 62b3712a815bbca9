// The plain data that the calls take and return.
#![tactic(auto)]

pub mod full; // full.rt: a plane whose samples are as many as its sides say
pub mod codes; // codes.rt: refusals as error codes and as text

// The damping that the frame header signals, the standard's CdefDamping, 3 to 6.
#[derive(Clone, Copy)]
pub struct SignalledDamping(pub u8);

// The damping as constrain takes it, 0 to 31: derived from the signalled one by the luma or the chroma rule.
#[derive(Clone, Copy)]
pub struct WorkingDamping(pub u8);

// The pair (RULES, Glossary) of a unit, a 64 by 64 luma square: its primary and its secondary strength, before shift and adjustment. A coded secondary of 3 is 4 here.
#[derive(Clone, Copy)]
pub struct UnitPair {
    pub primary: u8,
    pub secondary: u8,
}

// A block of a plane: the column and row of its top left sample, and its sides.
#[derive(Clone, Copy)]
pub struct Block {
    pub x: usize,
    pub y: usize,
    pub width: usize,
    pub height: usize,
}

// The visible size of a picture, in luma samples.
#[derive(Clone, Copy)]
pub struct Visible {
    pub width: usize,
    pub height: usize,
}

// The parameters of a block's filter: the working strengths (signalled, shifted left by depth - 8, in luma the primary adjusted), the direction, the working damping and the bit depth.
#[derive(Clone, Copy)]
pub struct FilterParams {
    pub pri: u32,
    pub sec: u32,
    pub dir: u8,
    pub damping: WorkingDamping,
    pub depth: u8,
}

// The two kinds of trial: with a luma block's variance, or, for chroma, without one.
// Kept as an enum: the None of an Option<u32> would not say that the block is of a chroma plane.
#[derive(Clone, Copy)]
pub enum TrialWay {
    Luma(u32),
    Chroma,
}

// The two constants c1 and c2 of a bit depth, which the weighted distance takes together.
#[derive(Clone, Copy)]
pub struct DistanceConstants {
    pub c1: f64,
    pub c2: f64,
}

// Why a call refuses its input: the first of its checks that fails. The number of each is its error code (RULES, Questions).
#[derive(Clone, Copy, Debug, PartialEq, Eq)]
pub enum Refusal {
    Depth = 1,
    Sides = 2,
    Subsampling = 3,
    PlaneLength = 4,
    Position = 5,
    Destination = 6,
    Lengths = 7,
    Values = 8,
    Samples = 9,
}

// The direction of a block, 0 to 7, and its variance.
#[derive(Clone, Copy, Debug, PartialEq, Eq)]
pub struct Found {
    pub direction: u8,
    pub variance: u32,
}

// A plane as a call receives it, nothing of it checked: its samples row by row, and its sides.
// Kept beside `FullPlane`, whose ghost fields a plane has only once its length and sides have been checked: the entries of the C interface pass planes before that.
#[derive(Clone, Copy)]
pub struct Plane<'a> {
    pub samples: &'a [u16],
    pub width: usize,
    pub height: usize,
}

// Which plane of a picture: luma, with a variance per block; or a chroma plane, with its two subsampling flags, horizontal and vertical.
// Kept as numbers, the flags: the C interface passes them as bytes, and question 3 refuses those that are not 0 or 1.
#[derive(Clone, Copy)]
pub enum PlaneKind<'a> {
    Luma { vars: &'a [u32] },
    Chroma { sx: u8, sy: u8 },
}

// What the frame calls share of a plane of a picture, nothing of it checked. The sides are luma's; per 8 by 8 luma block a skip flag and luma's direction, for a chroma plane too.
#[derive(Clone, Copy)]
pub struct Picture<'a> {
    pub kind: PlaneKind<'a>,
    pub depth: u8,
    pub width: usize,
    pub height: usize,
    pub skip: &'a [u8],
    pub dirs: &'a [u8],
}
