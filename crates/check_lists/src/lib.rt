// Questions 7, 8 and 9 of whole lists, each test with its definition's name.
// Kept as a clause, depth ≤ 12: question 1 has passed it, and every call below takes the plain number.
#![tactic(auto)]

ghost use Rattle.std.specs.Prelude.{◌≡◌, ◌^◌, ◌≤◌, eqb, length};
ghost use Rattle.std.specs.List.{list_all};
ghost use Rattle.std.specs.Ordering.{partial_lt};
ghost use Rattle.cdef_spec.specs.Questions.{all_below, all_taken, primary_taken, secondary_taken, pair_taken};

use cdef_spec::UnitPair;

// 7: the list has n entries.
pub fn has_length<T>(list: &[T], n: usize) -> bool
    ensures { result ≡ eqb (length list.now) n }
{
    list.len() == n
}

// Every entry is below m.
pub fn all_below<T: PartialOrd>(list: &[T], m: &T) -> bool
    ensures { result ≡ list_all (λ x. partial_lt T.partial_cmp x m.now) list.now }
{
    list.iter().all(|x| x < m)
}

// 9: every sample is below 2^depth. The bits of all samples are combined and tested once. The four quarters of the list are read side by side: four
// streams pass through the memory faster than one.
// Kept by index: one fold of the whole list measured 1.04 times the time of measuring and of the direction pass on planes of 4,096 by 4,096. Four zipped quarters are as
// fast and no plainer: `a.iter().zip(b).zip(c.iter().zip(d)).fold(0, |bits, ((a, b), (c, d))| bits | *a | *b | *c | *d)`, behind three calls of `split_at`.
pub fn samples_below(list: &[u16], depth: u8) -> bool
    requires { depth ≤ 12 }
    ensures { result ≡ all_below (2 ^ depth) list.now }
{
    let n = list.len() / 4;
    let mut bits = 0u16;
    for k in 0..n {
        bits |= list[k] | list[n + k] | list[2 * n + k] | list[3 * n + k];
    }
    bits |= check_samples::bits_of(&list[4 * n..]);
    bits >> depth == 0
}

// 8: every primary strength is 0 to 15.
pub fn all_primary(list: &[u8]) -> bool
    ensures { result ≡ all_taken primary_taken list.now }
{
    list.iter().all(|n| check_values::primary_taken(*n))
}

// 8: every secondary strength is 0, 1, 2 or 4.
pub fn all_secondary(list: &[u8]) -> bool
    ensures { result ≡ all_taken secondary_taken list.now }
{
    list.iter().all(|n| check_values::secondary_taken(*n))
}

// 8: both strengths of every pair.
pub fn all_pairs(list: &[UnitPair]) -> bool
    ensures { result ≡ all_taken pair_taken list.now }
{
    list.iter().all(|p| check_values::pair_taken(*p))
}
