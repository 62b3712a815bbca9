// Tries, applies and measures synthetic pictures, and prints each unit's pair and totals: the pairs passed as two lists, then as one slice of structs,
// then tried with no damping stated and applied with damping 3. Then what applying returns for lists of other lengths and for strengths out of range.
// `beside/run` compares the file stdout with what the Rust reference gives on the same pictures.
#![tactic(auto)]

mod agreed; // agreed.rt: the three calls on a picture
mod answers; // answers.rt: applying with some pairs
mod inputs; // inputs.rt: what the three calls are given

use agreed::Form;
use cdef_agree::NotCompared;
use cdef_spec::SignalledDamping;
use std::io;
use testlib_pictures::picture::Picture;
use testlib_pictures::report;
use testlib_pictures::table::{PICTURES, UNSTATED};

fn main(rt: HostRuntime) -> io::Result<()> {
    println!(rt; "pairs as two lists")?;
    pictures(&rt, Form::TwoLists)?;
    println!(rt; "pairs as one slice")?;
    pictures(&rt, Form::OneSlice)?;
    println!(rt; "tried with no damping stated, applied with damping 3")?;
    for picture in &UNSTATED {
        unstated(&rt, picture)?;
    }
    println!(rt; "lists of other lengths")?;
    answers::lines(&rt)
}

fn pictures(rt: &(impl Print + AllocGlobal), form: Form) -> io::Result<()> {
    for picture in &PICTURES {
        let found = agreed::picture(rt.alloc(), form, picture, stated(picture))?;
        report::totals(rt, picture, &found.tried, &found.measured)?;
        outcome(rt, found.answer)?;
    }
    Ok(())
}

// Luma is given a signalled damping, chroma that of quality index 120, by its call.
fn stated(picture: &Picture) -> Option<SignalledDamping> {
    if picture.is_luma() {
        return Some(SignalledDamping(5));
    }
    cdef_blocks::numbers::damping(120).ok()
}

// The totals tried with no damping stated, and those measured after applying with damping 3.
fn unstated(rt: &(impl Print + AllocGlobal), picture: &Picture) -> io::Result<()> {
    let three = Some(SignalledDamping(3));
    let applied = agreed::picture(rt.alloc(), Form::TwoLists, picture, three)?;
    let found = agreed::picture(rt.alloc(), Form::TwoLists, picture, None)?;
    report::totals(rt, picture, &found.tried, &applied.measured)?;
    outcome(rt, applied.answer)?;
    outcome(rt, found.answer)
}

// Of a difference the call is printed by its number: 0 where a pair is none of the twelve, 1 trying, 2 applying, 3 measuring.
// Kept as numbers: they are text that is printed; the calls are the variants of NotCompared.
fn outcome(rt: &impl Print, answer: Result<(), NotCompared>) -> io::Result<()> {
    let (call, code) = match answer {
        Ok(()) => return println!(rt; "all agree"),
        Err(NotCompared::NotTrialPairs) => (0, 0),
        Err(NotCompared::Trying(refusal)) => (1, u32::from(refusal)),
        Err(NotCompared::Applying(refusal)) => (2, u32::from(refusal)),
        Err(NotCompared::Measuring(refusal)) => (3, u32::from(refusal)),
    };
    println!(rt; "different: call {call}, error code {code}")
}
