// What several programs print of a unit.
#![tactic(auto)]

use cdef_spec::UnitPair;
use std::fmt;

// A unit's pair.
#[derive(Clone, Copy)]
pub struct PairText(pub UnitPair);

impl fmt::Display for PairText {
    fn fmt<W: fmt::Write>(&self, f: &mut fmt::Formatter<W>) -> fmt::Result {
        let primary = self.0.primary;
        let secondary = self.0.secondary;
        write!(f, "pair {primary}, {secondary}")
    }
}

// A unit's totals: the twelve that were tried, and the measured one; and the trial number of the unit's pair, if it is one of the twelve.
#[derive(Clone, Copy)]
pub struct UnitTotals<'a> {
    pub tried: &'a [i64],
    pub measured: i64,
    pub trial: Option<usize>,
}

impl fmt::Display for UnitTotals<'_> {
    fn fmt<W: fmt::Write>(&self, f: &mut fmt::Formatter<W>) -> fmt::Result {
        write!(f, "tried")?;
        for total in self.tried {
            write!(f, " {total}")?;
        }
        let measured = self.measured;
        write!(f, "; measured {measured}, ")?;
        match self.trial.and_then(|t| self.tried.get(t)) {
            Some(tried) if *tried == measured => write!(f, "the same as tried"),
            Some(_) => write!(f, "different"),
            None => write!(f, "the pair is none of the twelve"),
        }
    }
}
