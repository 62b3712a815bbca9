// The call for the trial of a block.
// Kept as parameters: a call's own, in the order of docs/CALLS.md.
ghost use Rattle.std.specs.Prelude.{◌≡◌};
ghost use Rattle.cdef_spec.specs.Lent.{plane_in};
ghost use Rattle.cdef_spec.specs.Answers.{read_done};
ghost use Rattle.cdef_spec.specs.BlockCalls.{trial_outcome};

use cdef_spec::{Block, Plane, Refusal, TrialWay, WorkingDamping};
use trial_strengths::TrialParams;

// Filters a block with the twelve pairs: trial block t lies in the 64 entries from t * 64 on, with the block's width as its row pitch.
// A centre that is marked or off the plane gives 16384; the entries after the block keep their values.
pub fn trial(
    out: &mut [u16],
    plane: &Plane<'_>,
    block: Block,
    way: TrialWay,
    dir: u8,
    damping: WorkingDamping,
    depth: u8,
) -> Result<(), Refusal>
    ensures { trial_outcome (plane_in plane.now) block way dir damping depth out.old
        ≡ record { answer = read_done result; out = out.new } }
{
    let full = check_block::trial::trial_no(out, plane, block, way, dir, damping, depth)?;
    let win = filter_window::window(&full, block);
    check_samples::window_no(&win, depth)?;
    let params = TrialParams {
        way,
        dir,
        damping,
        depth,
    };
    trial_block::block::trial_window(out, &win, block, params);
    Ok(())
}
