// The least and the greatest of each of sixteen samples and its taps.
// Kept with list, first index and taps as three parameters, as in lib.rt.
ghost use Rattle.arith_sample.specs.Bounds.{Held};
ghost use Rattle.plane_taps.specs.Reach.{Reached6, Around};
ghost use Rattle.std.specs.Prelude.{◌<◌, ◌≡◌, length};
ghost use Rattle.filter_rows.specs.Pairs.{pairs_of};
ghost use Rattle.trial_sums.specs.Raw.{LimitsKnown};

use filter_limits::Pairs;
use filter_rows::Taps;
use plane_taps::load;
use trial_runs::Limits;

fn load_pairs(t: &[u16], k: usize, o: Taps) -> Pairs
    requires { Reached6 (length t.now) k o }
    ensures { result ≡ pairs_of t.now k o }
{
    Pairs {
        p0: load::load(t, k, o.p0),
        p1: load::load(t, k, o.p1),
        q0: load::load(t, k, o.q0),
        q1: load::load(t, k, o.q1),
        r0: load::load(t, k, o.r0),
        r1: load::load(t, k, o.r1),
    }
}

// Both in one loop: a loop for each loads every tap twice, which is 2 % slower in the whole trial.
// Kept as a loop that writes both arrays: by array::from_fn of pairs of limits the luma trial measured 1.23 times the time.
pub fn limits_of(t: &[u16], at: usize, o: Taps) -> Limits
    requires { Around (length t.now) at 16 o × Held t.now }
    ensures { LimitsKnown t.now at o result }
{
    let mut lo = [0u16; 16];
    let mut hi = [0u16; 16];
    for (j, c) in t[at..at + 16].iter().enumerate() {
        let e = load_pairs(t, at + j, o);
        lo[j] = filter_limits::lowest(e, *c);
        hi[j] = filter_limits::highest(e, *c);
    }
    Limits { lo, hi }
}
