// The calls, one after the other: the direction pass, trying, applying, measuring. The first that refuses ends them.
// Kept as parameters: the memory, the job and its picture; the picture holds slices of the direction pass, which the job does not.
ghost use Rattle.std.specs.Prelude.{◌*◌, ◌≤◌, ◌≡◌, length, IfOk};
ghost use Rattle.still_lists.specs.Lists.{unit_count, total_count};

use crate::refusals::{Call, Refused};
use cdef::{applying, measuring, pass, trying};
use cdef_spec::{Picture, Plane, PlaneKind, SignalledDamping, UnitPair, Visible};
use std::alloc::{AllocError, Global};
use still_lists::Counts;
use thiserror::Error;

// The pair that changes no sample.
const NO_PAIR: UnitPair = UnitPair {
    primary: 0,
    secondary: 0,
};

// A still and its original, padded; its visible size and its depth; and what it is filtered with.
#[derive(Clone, Copy)]
pub struct Job<'a> {
    pub still: &'a [u16],
    pub original: &'a [u16],
    pub counts: Counts,
    pub visible: Visible,
    pub depth: u8,
    pub pair: UnitPair,
    pub damping: Option<SignalledDamping>,
}

// The filtered plane; twelve tried totals per unit, and the measured one.
#[derive(Drop)]
pub struct Filtered {
    pub plane: Vec<u16>,
    pub tried: Vec<i64>,
    pub measured: Vec<i64>,
    pub ghost twelve_per_unit: { length tried.items ≡ 12 * length measured.items },
    pub ghost few_units: { length measured.items ≤ 4096 },
}

// Why a still is not filtered: a call refused, or memory ran out.
#[derive(Debug, Drop, Error)]
pub enum StepError {
    #[error(transparent)]
    Refused(#[from] Refused),
    #[error(transparent)]
    Memory(#[from(alloc)] AllocError),
}

// The twelve tried totals of each unit.
fn try_out(alloc: Global, job: &Job<'_>, picture: &Picture<'_>) -> Result<Vec<i64>, StepError>
    ensures { IfOk result (λ v. length v.items ≡ total_count job.now.counts) }
{
    let mut tried = vec![in alloc; 0; job.counts.totals()]?;
    trying::try_units(
        &mut tried,
        job.still,
        job.original,
        picture,
        job.visible,
        job.damping,
    )
    .map_err(|refusal| Call::Trying.refused(refusal))?;
    Ok(tried)
}

// A copy of the still, filtered with one pair in every unit.
fn apply(alloc: Global, job: &Job<'_>, picture: &Picture<'_>) -> Result<Vec<u16>, StepError> {
    let mut plane = Vec::from_slice(alloc, job.still)?;
    let pairs = vec![in alloc; job.pair; job.counts.units()]?;
    applying::apply_units(&mut plane, job.still, picture, &pairs, job.damping).map_err(
        |refusal| Call::Applying.refused(refusal),
    )?;
    Ok(plane)
}

// The measured total of each unit of the filtered plane, with the pair 0, 0.
fn measure(
    alloc: Global,
    job: &Job<'_>,
    picture: &Picture<'_>,
    plane: &[u16],
) -> Result<Vec<i64>, StepError>
    ensures { IfOk result (λ v. length v.items ≡ unit_count job.now.counts) }
{
    let mut measured = vec![in alloc; 0; job.counts.units()]?;
    let mut scratch = vec![in alloc; 0; job.counts.scratch()]?;
    measuring::measure_units(
        &mut measured,
        &mut scratch,
        plane,
        job.original,
        picture,
        job.visible,
        NO_PAIR,
        job.damping,
    )
    .map_err(|refusal| Call::Measuring.refused(refusal))?;
    Ok(measured)
}

// The direction and the variance of each block.
fn find_directions(job: &Job<'_>, dirs: &mut [u8], vars: &mut [u32]) -> Result<(), StepError> {
    let still = Plane {
        samples: job.still,
        width: job.counts.width,
        height: job.counts.height,
    };
    pass::directions(dirs, vars, &still, job.depth).map_err(|refusal| Call::DirectionPass.refused(
        refusal,
    ))?;
    Ok(())
}

// Filters a copy of the still, and measures it. No block is skipped.
pub fn filter(alloc: Global, job: &Job<'_>) -> Result<Filtered, StepError> {
    let n = job.counts;
    let skip = vec![in alloc; 0; n.blocks()]?;
    let mut dirs = vec![in alloc; 0; n.blocks()]?;
    let mut vars = vec![in alloc; 0; n.blocks()]?;
    find_directions(job, &mut dirs, &mut vars)?;
    let picture = Picture {
        kind: PlaneKind::Luma { vars: &vars },
        depth: job.depth,
        width: n.width,
        height: n.height,
        skip: &skip,
        dirs: &dirs,
    };
    let tried = try_out(alloc, job, &picture)?;
    let plane = apply(alloc, job, &picture)?;
    let measured = measure(alloc, job, &picture, &plane)?;
    Ok(Filtered {
        plane,
        tried,
        measured,
    })
}
