// The list of unit pairs (RULES, Glossary: one primary and one secondary strength per unit): a trait, for the caller's slice of structs and for two lists of bytes.
#![tactic(auto)]

ghost use Rattle.std.specs.Prelude.{◌≡◌, Bool, List, ℕ, ◌<◌, ◌&&◌, eqb, length};
ghost use Rattle.cdef_spec.specs.declared.UnitPair.{UnitPair};
ghost use Rattle.cdef_spec.specs.Picture.{pair_at};
ghost use Rattle.cdef_spec.specs.Questions.{all_taken, pair_taken, primary_taken, secondary_taken};
ghost use Rattle.cdef_spec.specs.FrameCalls.{pairs_of};
ghost use Rattle.cdef_pairs.specs.Applying.{PairsLaws};
ghost use Rattle.cdef_pairs.specs.KindLaws.{lists-as-many, lists-taken, slice-as-many, slice-taken};

use cdef_spec::UnitPair;

// A list of unit pairs, however the caller keeps it, and its own tests of questions 7 and 8.
// The laws tie the tests to the pairs; what pairs, listed and taken are is to be read at each kind, since the contracts are written in them.
pub trait Pairs {
    // the pair of each unit
    ghost pairs: { Self → List UnitPair };

    // 7: it has an entry for each of so many units
    ghost listed: { Self → ℕ → Bool };

    // 8: its strengths
    ghost taken: { Self → Bool };

    fn is_listed(&self, n: usize) -> bool
        ensures { result ≡ listed self.now n };

    fn are_taken(&self) -> bool
        ensures { result ≡ taken self.now };

    // How many pairs there are.
    fn count(&self) -> usize
        ensures { result ≡ length (pairs self.now) };

    // The pair of unit u.
    fn pair(&self, u: usize) -> UnitPair
        requires { u < length (pairs self.now) }
        ensures { result ≡ pair_at (pairs self.now) u };

    ghost laws: { PairsLaws pairs listed taken };
}

// A slice with the pair of each unit.
#[derive(Clone, Copy)]
pub struct PairSlice<'a> {
    pub units: &'a [UnitPair],
}

impl<'a> Pairs for PairSlice<'a> {
    ghost pairs = { λ s. s.units.now };

    ghost listed = { λ s n. eqb (length s.units.now) n };

    ghost taken = { λ s. all_taken pair_taken s.units.now };

    fn is_listed(&self, n: usize) -> bool {
        check_lists::has_length(self.units, n)
    }

    fn are_taken(&self) -> bool {
        check_lists::all_pairs(self.units)
    }

    fn count(&self) -> usize {
        self.units.len()
    }

    fn pair(&self, u: usize) -> UnitPair {
        self.units[u]
    }

    ghost laws = { record { as-many = λ s n e. slice-as-many s.units.now n e; taken-is = λ s n e. slice-taken s.units.now } };
}

// A list with the primary strength of each unit, and one with the secondary strengths. Their lengths are tested by question 7.
#[derive(Clone, Copy)]
pub struct StrengthLists<'a> {
    // Kept as two lists: the C interface passes them so.
    pub pris: &'a [u8],
    pub secs: &'a [u8],
}

impl<'a> Pairs for StrengthLists<'a> {
    ghost pairs = { λ s. pairs_of s.pris.now s.secs.now };

    ghost listed = { λ s n. eqb (length s.pris.now) n && eqb (length s.secs.now) n };

    ghost taken = { λ s. all_taken primary_taken s.pris.now && all_taken secondary_taken s.secs.now };

    fn is_listed(&self, n: usize) -> bool {
        check_lists::has_length(self.pris, n) && check_lists::has_length(self.secs, n)
    }

    fn are_taken(&self) -> bool {
        check_lists::all_primary(self.pris) && check_lists::all_secondary(self.secs)
    }

    fn count(&self) -> usize {
        self.pris.len()
    }

    fn pair(&self, u: usize) -> UnitPair {
        UnitPair {
            primary: self.pris[u],
            secondary: self.secs.get(u).copied().unwrap_or(0),
        }
    }

    ghost laws = { record { as-many = λ s n e. lists-as-many s.pris.now s.secs.now n e; taken-is = λ s n e. lists-taken s.pris.now s.secs.now n e } };
}
