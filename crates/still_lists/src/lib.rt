// The sizes of the lists of a picture.
#![tactic(auto)]

ghost use Rattle.std.specs.Prelude.{◌+◌, ◌*◌, ◌/◌, ◌≤◌, ◌≡◌, true};

use still_pgm::sizes;

// How many there are of each in a picture of these padded sides.
#[derive(Clone, Copy)]
pub struct Counts {
    pub width: usize,
    pub height: usize,
    pub ghost sides: { (width ≤ 4096) × (height ≤ 4096) },
}

impl Counts {
    ghost use Rattle.still_pgm.specs.Sizes.{is_taken};
    ghost use Rattle.still_lists.specs.Lists.{along, sample_count, block_count, unit_count, total_count, scratch_count, Counted};

    // Those of a picture of w by h visible samples.
    pub fn of(w: usize, h: usize) -> Counts
        requires { is_taken w h ≡ true }
        ensures { Counted w h result }
    {
        Counts {
            width: sizes::padded_side(w),
            height: sizes::padded_side(h),
        }
    }

    pub fn samples(self) -> usize
        ensures { result ≡ sample_count self }
    {
        self.width * self.height
    }

    pub fn blocks(self) -> usize
        ensures { result ≡ block_count self }
    {
        (self.width / 8) * (self.height / 8)
    }

    pub fn units(self) -> usize
        ensures counted { result ≡ unit_count self }
        ensures most { result ≤ 4096 }
    {
        units_along(self.width) * units_along(self.height)
    }

    // One total for each of the twelve pairs.
    pub fn totals(self) -> usize
        ensures { result ≡ total_count self }
    {
        12 * self.units()
    }

    // The samples of the scratch: eight rows.
    pub fn scratch(self) -> usize
        ensures { result ≡ scratch_count self }
    {
        8 * self.width
    }
}

// How many units lie along a side.
fn units_along(side: usize) -> usize
    requires { side ≤ 4096 }
    ensures { result ≡ (side + 63) / 64 }
{
    side.div_ceil(64)
}
