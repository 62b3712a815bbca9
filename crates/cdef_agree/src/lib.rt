// Trying, applying and measuring, one call after the other, and the agreement of their totals.
// Kept as parameters: the slices that a caller lends, as in the three calls.
#![tactic(auto)]

ghost use Rattle.std.specs.Prelude.{◌≡◌, OnOk};
ghost use Rattle.cdef_spec.specs.Lent.{picture_in};
ghost use Rattle.cdef_spec.specs.Demand3.{Agrees};
ghost use Rattle.cdef_agree.specs.Agree.{read_agreement, agree_by_outcome};

use cdef::applying::apply_pairs;
use cdef_pairs::Pairs;
use cdef_spec::{Picture, Refusal, SignalledDamping, UnitPair, Visible};

// Why the totals are not compared: a pair is none of the twelve, or one of the calls refused.
#[derive(Clone, Copy, Debug, PartialEq, Eq)]
pub enum NotCompared {
    NotTrialPairs,
    Trying(Refusal),
    Applying(Refusal),
    Measuring(Refusal),
}

// Tries; with pairs that are each one of the twelve, copies the snapshot into the destination and applies them; measures what that left, with pair 0, 0.
// Where all three calls are accepted, each unit's measured total is its tried total at its pair's trial number.
pub fn agree_units<P: Pairs>(
    tried: &mut [i64],
    dst: &mut [u16],
    measured: &mut [i64],
    scratch: &mut [u16],
    snapshot: &[u16],
    original: &[u16],
    picture: &Picture<'_>,
    visible: Visible,
    pairs: &P,
    damping: Option<SignalledDamping>,
) -> Result<(), NotCompared>
    ensures outcome { agree_by_outcome (picture_in picture.now) damping visible snapshot.now original.now (P.listed pairs.now)
        (P.taken pairs.now) (P.pairs pairs.now) tried.old dst.old measured.old scratch.old ≡ record {
          answer = read_agreement result;
          tried = tried.new;
          dst = dst.new;
          measured = measured.new;
          scratch = scratch.new;
        } }
    ensures agrees { OnOk result (Agrees (picture_in picture.now) (P.pairs pairs.now) tried.new measured.new) }
{
    cdef::trying::try_units(tried, snapshot, original, picture, visible, damping).map_err(
        NotCompared::Trying,
    )?;
    if !agree_parts::trial_pairs(pairs) {
        return Err(NotCompared::NotTrialPairs);
    }
    agree_parts::copy(dst, snapshot);
    apply_pairs(dst, snapshot, picture, pairs, damping).map_err(NotCompared::Applying)?;
    // Kept as its two numbers, as the definition `off` and the sentence above the function have them: a constant would be used once here.
    let off = UnitPair {
        primary: 0,
        secondary: 0,
    };
    cdef::measuring::measure_units(
        measured, scratch, dst, original, picture, visible, off, damping,
    )
    .map_err(NotCompared::Measuring)?;
    Ok(())
}
