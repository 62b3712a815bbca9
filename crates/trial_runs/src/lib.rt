// Runs of sixteen samples of a trial block, finished and stored.
// Kept in each contract: where a run lies (list, trial block, entry), and that centres and sums are in range. A struct of either
// would be made anew for each of the twelve runs, only to be taken apart in put_run, free_run or both_run.
#![tactic(auto)]

ghost use Rattle.std.specs.Prelude.{◌≡◌, ◌+◌, ◌≤◌, ◌<◌, length};
ghost use Rattle.cdef_spec.specs.LoopForm.{put_row};
ghost use Rattle.arith_sample.specs.Bounds.{Held, Within};
ghost use Rattle.arith_sample.specs.Upto.{upto};
ghost use Rattle.trial_runs.specs.Runs.{raised_at, clipped_at, run_tap, raised_tap, clipped_tap};

use std::array;

// The least and the greatest of each of sixteen samples and its taps.
#[derive(Clone, Copy)]
pub struct Limits {
    pub lo: [u16; 16],
    pub hi: [u16; 16],
    pub ghost held: { Held lo × Held hi },
}

// Centres with one sum, which needs no clip.
pub fn free_run(c: &[u16; 16], s: &[i16; 16]) -> [u16; 16]
    requires { Held c.now × Within s.now 7680 }
    ensures { result ≡ upto (raised_at c.now s.now) 16 }
{
    array::from_fn(|j| arith_sample::raised(c[j], s[j]))
}

// Centres with both sums, clipped.
pub fn both_run(c: &[u16; 16], p: &[i16; 16], s: &[i16; 16], e: &Limits) -> [u16; 16]
    requires { Held c.now × Within p.now 3840 × Within s.now 7680 }
    ensures { result ≡ upto (clipped_at c.now p.now s.now e.now.lo e.now.hi) 16 }
{
    array::from_fn(|j| {
        arith_sample::clipped(c[j], arith_sample::add(p[j], s[j]), e.lo[j], e.hi[j])
    })
}

// A run stored in trial block t, from its entry k on.
// Kept beside trial_any::put_block: sixteen is a literal, so that a run is stored whole; the count there is known only when it runs.
pub fn put_run(out: &mut [u16], t: usize, k: usize, v: [u16; 16])
    requires { (length out.old ≡ 768) × (t < 12) × (k + 16 ≤ 64) }
    ensures { out.new ≡ put_row out.old 64 (run_tap v k) t k 16 }
{
    let at = t * 64 + k;
    out[at..at + 16].copy_from_slice(&v);
}

// The same by one sum.
pub fn put_free(out: &mut [u16], t: usize, k: usize, c: &[u16; 16], s: &[i16; 16])
    requires { (length out.old ≡ 768) × (t < 12) × (k + 16 ≤ 64) × Held c.now × Within s.now 7680 }
    ensures { out.new ≡ put_row out.old 64 (raised_tap c.now s.now k) t k 16 }
{
    put_run(out, t, k, free_run(c, s));
}

// The same by both sums.
pub fn put_both(
    out: &mut [u16],
    t: usize,
    k: usize,
    c: &[u16; 16],
    p: &[i16; 16],
    s: &[i16; 16],
    e: &Limits,
)
    requires run_fits { (length out.old ≡ 768) × (t < 12) × (k + 16 ≤ 64) }
    requires held { Held c.now × Within p.now 3840 × Within s.now 7680 }
    ensures { out.new ≡ put_row out.old 64 (clipped_tap c.now p.now s.now e.now.lo e.now.hi k) t k 16 }
{
    put_run(out, t, k, both_run(c, p, s, e));
}
