// What is printed: a line with the sizes, a line per unit, and whether all agree.
ghost use Rattle.std.specs.Prelude.{◌<◌, IfSome};

use print::{PairText, UnitTotals};
use std::io;
use still_steps::steps::{Filtered, Job};
use still_steps::totals;

fn heading(rt: &impl Print, job: &Job<'_>) -> io::Result<()> {
    let w = job.visible.width;
    let h = job.visible.height;
    let n = job.counts;
    println!(rt;
        "{w} by {h}, padded to {} by {}, depth {}, units {}, {}",
        n.width,
        n.height,
        job.depth,
        n.units(),
        PairText(job.pair)
    )
}

// Whether all agree, or how many units do not; nothing is compared where the pair has no trial number.
fn outcome(rt: &impl Print, trial: Option<usize>, filtered: &Filtered) -> io::Result<()>
    requires { IfSome trial (λ t. t < 12) }
{
    let Some(trial) = trial else {
        return println!(rt; "nothing compared");
    };
    match totals::differing(
        filtered.tried.as_slice(),
        filtered.measured.as_slice(),
        trial,
    ) {
        0 => println!(rt; "all agree"),
        differing => println!(rt; "{differing} differ"),
    }
}

pub fn report(rt: &impl Print, job: &Job<'_>, filtered: &Filtered) -> io::Result<()> {
    heading(rt, job)?;
    let trial = arith_trials::trial_of(job.pair);
    let units = filtered.tried.chunks_exact(12).zip(&filtered.measured);
    for (u, (tried, measured)) in units.enumerate() {
        let totals = UnitTotals {
            tried,
            measured: *measured,
            trial,
        };
        println!(rt; "unit {u}: {totals}")?;
    }
    outcome(rt, trial, filtered)
}
