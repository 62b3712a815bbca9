// The signalled damping of a quality index and of a frame call, and the working damping by the luma and the chroma rule.
// Kept as a clause, the depth's range: the depth is a caller's number, and a type of depths in range would be made at each call for these two additions.
#![tactic(auto)]

ghost use Rattle.std.specs.Prelude.{◌≡◌, ◌≤◌};
ghost use Rattle.cdef_spec.specs.Document01.{quality_damping, in_force, luma_damping, chroma_damping};
ghost use Rattle.arith_damping.specs.Choice.{choice_of};

use cdef_spec::{SignalledDamping, WorkingDamping};

// The damping of a quality index: 3 + min(index / 64, 3).
pub fn cdef_damping(index: u32) -> SignalledDamping
    ensures { result ≡ quality_damping index }
{
    SignalledDamping(3 + (index / 64).min(3) as u8)
}

// The figure in force: the signalled damping given, or 3 where none is stated.
#[tactic(auto, unfolding(cdef_spec::specs::Document01::in_force))]
pub fn in_force(choice: Option<SignalledDamping>) -> SignalledDamping
    ensures { result ≡ in_force choice }
{
    choice.unwrap_or(SignalledDamping(3))
}

// A frame call's damping as C passes it: a signalled damping, and a flag that is 1 where none is stated.
// Another flag becomes the signalled damping 0, which question 8 rejects.
// Kept as a number and a flag: the C interface passes them so; from here on it is an Option.
#[tactic(auto, unfolding(crate::specs::Choice::choice_of))]
pub fn choice_of(damping: u8, unstated: u8) -> Option<SignalledDamping>
    ensures { result ≡ choice_of damping unstated }
{
    match unstated {
        0 => Some(SignalledDamping(damping)),
        1 => None,
        _ => Some(SignalledDamping(0)),
    }
}

// The luma rule: signalled + depth - 8.
// Kept beside chroma_damping, which is one less: two rules with a definition each, and one function for both would take the plane's kind to choose a subtraction.
pub fn luma_damping(d: SignalledDamping, depth: u8) -> WorkingDamping
    requires { (d.0 ≤ 200) × (8 ≤ depth) × (depth ≤ 12) }
    ensures { result ≡ luma_damping d depth }
{
    WorkingDamping(d.0 + (depth - 8))
}

// The chroma rule: one less.
pub fn chroma_damping(d: SignalledDamping, depth: u8) -> WorkingDamping
    requires { (1 ≤ d.0) × (d.0 ≤ 200) × (8 ≤ depth) × (depth ≤ 12) }
    ensures { result ≡ chroma_damping d depth }
{
    WorkingDamping(d.0 + (depth - 8) - 1)
}
