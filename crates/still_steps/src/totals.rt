// Totals compared.
ghost use Rattle.std.specs.Prelude.{◌*◌, ◌≤◌, ◌<◌, ◌≡◌, not, length};
ghost use Rattle.still_lists.specs.Lists.{same_total, differ};

// Whether two totals differ.
fn differs(tried: i64, measured: i64) -> bool
    ensures { result ≡ not (same_total tried measured) }
{
    tried != measured
}

// In how many units the measured total differs from the tried one of a trial number.
// Kept by index: over `tried.chunks_exact(12).zip(measured)` the check couldn't prove that the count fits its type.
pub fn differing(tried: &[i64], measured: &[i64], trial: usize) -> usize
    requires trial_of_twelve { trial < 12 }
    requires twelve_per_unit { length tried.now ≡ 12 * length measured.now }
    requires few_units { length measured.now ≤ 4096 }
    ensures { result ≡ differ tried.now measured.now trial (length measured.now) }
{
    let mut count = 0;
    for (u, total) in measured.iter().enumerate() {
        count += usize::from(differs(tried[12 * u + trial], *total));
    }
    count
}
