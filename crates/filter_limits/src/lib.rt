// The least and the greatest of a sample and its taps, as the window holds them.
// Kept as clauses, HeldPair and HeldPairs: as ghost fields they would ask a proof of `pair_of` and `pairs_of`, which read a tap of any list at any index.
#![tactic(auto)]

ghost use Rattle.std.specs.Prelude.{◌≡◌, ◌≤◌};
ghost use Rattle.filter_limits.specs.Limits.{HeldPair, HeldPairs, further_of, seen_of, pair_limit, limit_of, lowest_of, highest_of};

// Which of the two limits. Kept as a const parameter, LIMIT, of further, seen, pair_limit and limit: as closures, each of the four would take two of them,
// the choice of two samples and what the mark counts.
pub const LEAST: bool = false;

pub const GREATEST: bool = true;

// A tap and its opposite, as the window holds them.
#[derive(Clone, Copy)]
pub struct Pair {
    pub on: u16,
    pub back: u16,
}

// The taps of a sample: p in the direction itself, q in the one 2 further, r in the one 6 further; 0 near, 1 far.
#[derive(Clone, Copy)]
pub struct Pairs {
    pub p0: Pair,
    pub p1: Pair,
    pub q0: Pair,
    pub q1: Pair,
    pub r0: Pair,
    pub r1: Pair,
}

// The lesser or the greater of two samples.
pub fn further<const LIMIT: bool>(a: u16, b: u16) -> u16
    ensures { result ≡ further_of LIMIT a b }
{
    if LIMIT { a.max(b) } else { a.min(b) }
}

// A tap as the limit takes it. The mark is above each sample, so it is never the least; for the greatest it counts 0.
fn seen<const LIMIT: bool>(t: u16) -> u16
    requires { t ≤ 16384 }
    ensures { (result ≡ seen_of LIMIT t) × (result ≤ 16384) }
{
    if LIMIT { t % arith_sample::MARK } else { t }
}

// The lesser or the greater of a tap and its opposite.
fn pair_limit<const LIMIT: bool>(p: Pair) -> u16
    requires { HeldPair p }
    ensures { (result ≡ pair_limit LIMIT p) × (result ≤ 16384) }
{
    further::<LIMIT>(seen::<LIMIT>(p.on), seen::<LIMIT>(p.back))
}

// The least or the greatest of the taps and the centre.
fn limit<const LIMIT: bool>(e: Pairs, c: u16) -> u16
    requires { HeldPairs e × (c ≤ 16384) }
    ensures { (result ≡ limit_of LIMIT e c) × (result ≤ 16384) }
{
    let p = further::<LIMIT>(pair_limit::<LIMIT>(e.p0), pair_limit::<LIMIT>(e.p1));
    let q = further::<LIMIT>(pair_limit::<LIMIT>(e.q0), pair_limit::<LIMIT>(e.q1));
    let r = further::<LIMIT>(pair_limit::<LIMIT>(e.r0), pair_limit::<LIMIT>(e.r1));
    further::<LIMIT>(further::<LIMIT>(p, q), further::<LIMIT>(r, c))
}

// The least of a sample and its taps.
pub fn lowest(e: Pairs, c: u16) -> u16
    requires { HeldPairs e × (c ≤ 16384) }
    ensures { (result ≡ lowest_of e c) × (result ≤ 16384) }
{
    limit::<LEAST>(e, c)
}

// The greatest of a sample and its taps, marked ones left out.
pub fn highest(e: Pairs, c: u16) -> u16
    requires { HeldPairs e × (c ≤ 16384) }
    ensures { (result ≡ highest_of e c) × (result ≤ 16384) }
{
    limit::<GREATEST>(e, c)
}
