// A block's filter parameters. b is the block's index.
ghost use Rattle.std.specs.Prelude.{◌≡◌, cond, eqb, ◌≤◌, ◌<◌, get_or, length};
ghost use Rattle.cdef_spec.specs.Picture.{params_for, is_off};
ghost use Rattle.frame_shape.specs.Frame.{way_of, dir_of, damping_of, primary_of};
ghost use Rattle.frame_shape.specs.Shape.{HasVariance, HasParams};
ghost use Rattle.frame_shape.specs.Checked.{shaped_in};

use crate::checked::ShapedPicture;
use cdef_spec::{FilterParams, PlaneKind, SignalledDamping, TrialWay, UnitPair, WorkingDamping};

// A pair whose strengths are in their ranges, question 8.
#[derive(Clone, Copy)]
pub struct TakenPair {
    pub pair: UnitPair,
    pub ghost low: { (pair.primary ≤ 15) × (pair.secondary ≤ 4) },
}

// Block b's variance. In a function of its own: the check knows there that the list's length fits in a usize.
fn variance_of(vars: &[u32], b: usize) -> u32
    requires { b < length vars.now }
    ensures { result ≡ get_or vars.now b 0 }
{
    vars[b]
}

impl<'a> ShapedPicture<'a> {
    // The working damping, by the luma or the chroma rule.
    #[tactic(auto, unfolding(cdef_spec::specs::Lent::picture_in, cdef_spec::specs::Lent::kind_in, crate::specs::Frame::damping_of))]
    pub fn damping_of(&self, d: SignalledDamping) -> WorkingDamping
        requires { (3 ≤ d.0) × (d.0 ≤ 6) }
        ensures { result ≡ damping_of (shaped_in self.now).kind d self.now.picture.depth }
    {
        match self.picture.kind {
            PlaneKind::Luma { .. } => arith_damping::luma_damping(d, self.picture.depth),
            PlaneKind::Chroma { .. } => arith_damping::chroma_damping(d, self.picture.depth),
        }
    }

    // The block's direction in the plane.
    #[tactic(auto, unfolding(cdef_spec::specs::Lent::picture_in, cdef_spec::specs::Lent::kind_in, crate::specs::Frame::dir_of))]
    pub fn dir_of(&self, b: usize) -> u8
        requires { (b < length self.now.picture.dirs.now) × (get_or self.now.picture.dirs.now b 0 < 8) }
        ensures { result ≡ dir_of (shaped_in self.now).kind (shaped_in self.now).dirs b }
    {
        let dir = self.picture.dirs[b];
        match self.picture.kind {
            PlaneKind::Luma { .. } => dir,
            PlaneKind::Chroma { sx, sy } => arith_tables::chroma_direction(sx, sy, dir),
        }
    }

    // The kind of the block's trial.
    #[tactic(auto, unfolding(cdef_spec::specs::Lent::picture_in, cdef_spec::specs::Lent::kind_in, crate::specs::Frame::way_of))]
    pub fn way_of(&self, b: usize) -> TrialWay
        requires { HasVariance (shaped_in self.now).kind b }
        ensures { result ≡ way_of (shaped_in self.now).kind b }
    {
        match self.picture.kind {
            PlaneKind::Luma { vars } => TrialWay::Luma(variance_of(vars, b)),
            PlaneKind::Chroma { .. } => TrialWay::Chroma,
        }
    }

    // A signalled primary strength as the block's working one: in luma adjusted by the variance.
    // Kept as a clause, s ≤ 15: it takes the one strength of a TakenPair, as a number.
    #[tactic(auto, unfolding(cdef_spec::specs::Lent::picture_in, cdef_spec::specs::Lent::kind_in, crate::specs::Frame::primary_of))]
    fn primary_of(&self, b: usize, s: u8) -> u32
        requires { HasVariance (shaped_in self.now).kind b × (s ≤ 15) }
        ensures { result ≡ primary_of (shaped_in self.now).kind (shaped_in self.now).depth b s }
    {
        let p = u32::from(s) << (self.picture.depth - 8);
        match self.picture.kind {
            PlaneKind::Luma { vars } => arith_strength::adjust_pri(p, variance_of(vars, b)),
            PlaneKind::Chroma { .. } => p,
        }
    }

    // The direction that a block is filtered in: 0 where the signalled primary is 0.
    fn dir_for(&self, b: usize, s: u8) -> u8
        requires { (b < length self.now.picture.dirs.now) × (get_or self.now.picture.dirs.now b 0 < 8) }
        ensures { result ≡ cond (eqb s 0) 0 (dir_of (shaped_in self.now).kind (shaped_in self.now).dirs b) }
    {
        if s == 0 {
            return 0;
        }
        self.dir_of(b)
    }

    // The filter parameters of block b, for a pair.
    #[tactic(auto, unfolding(cdef_spec::specs::Lent::picture_in))]
    pub fn params_for(&self, b: usize, p: TakenPair, d: SignalledDamping) -> FilterParams
        requires block { HasParams (shaped_in self.now) b }
        requires damping { (3 ≤ d.0) × (d.0 ≤ 6) }
        ensures { result ≡ params_for (shaped_in self.now).kind (shaped_in self.now).depth (shaped_in self.now).dirs d p.pair b }
    {
        let depth = self.picture.depth;
        FilterParams {
            pri: self.primary_of(b, p.pair.primary),
            sec: u32::from(p.pair.secondary) << (depth - 8),
            dir: self.dir_for(b, p.pair.primary),
            damping: self.damping_of(d),
            depth,
        }
    }
}

// Whether it is the pair 0, 0.
pub fn is_off(p: UnitPair) -> bool
    ensures { result ≡ is_off p }
{
    p.primary == 0 && p.secondary == 0
}
