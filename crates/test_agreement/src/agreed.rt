// Trying, applying and measuring a picture with its pairs.
use crate::inputs::Inputs;
use cdef_agree::NotCompared;
use cdef_pairs::{PairSlice, Pairs, StrengthLists};
use cdef_spec::SignalledDamping;
use std::alloc::{AllocError, Global};
use testlib_pictures::picture::{Picture, UNITS, VISIBLE};

// How the pairs are passed: as one slice of structs, or as two lists of strengths. Kept as two lists below: the C entries take them so, and this tests it.
#[derive(Clone, Copy, Debug, PartialEq, Eq)]
pub enum Form {
    OneSlice,
    TwoLists,
}

// What the three calls return, and the totals that they leave.
#[derive(Drop)]
pub struct Outcome {
    pub answer: Result<(), NotCompared>,
    pub tried: Vec<i64>,
    pub measured: Vec<i64>,
}

// The outcome of a picture with its pairs in a form. The two lists are Kept, as above.
pub fn picture(
    alloc: Global,
    form: Form,
    picture: &Picture,
    damping: Option<SignalledDamping>,
) -> Result<Outcome, AllocError> {
    let inputs = Inputs::new(alloc, picture)?;
    let outcome = match form {
        Form::OneSlice => {
            let pairs = PairSlice {
                units: &inputs.pairs,
            };
            agreed(alloc, picture, &inputs, &pairs, damping)?
        }
        Form::TwoLists => {
            let pris = inputs.primaries(alloc)?;
            let secs = inputs.secondaries(alloc)?;
            let pairs = StrengthLists {
                pris: &pris,
                secs: &secs,
            };
            agreed(alloc, picture, &inputs, &pairs, damping)?
        }
    };
    Ok(outcome)
}

fn agreed<P: Pairs>(
    alloc: Global,
    picture: &Picture,
    inputs: &Inputs,
    pairs: &P,
    damping: Option<SignalledDamping>,
) -> Result<Outcome, AllocError> {
    let mut tried = vec![in alloc; 0i64; 12 * UNITS]?;
    let mut dst = vec![in alloc; 0u16; inputs.snapshot.len()]?;
    let mut measured = vec![in alloc; 0i64; UNITS]?;
    let mut scratch = vec![in alloc; 0u16; inputs.snapshot.len() / 17]?;
    let answer = cdef_agree::agree_units(
        &mut tried,
        &mut dst,
        &mut measured,
        &mut scratch,
        &inputs.snapshot,
        &inputs.original,
        &inputs.of(picture),
        VISIBLE,
        pairs,
        damping,
    );
    Ok(Outcome {
        answer,
        tried,
        measured,
    })
}
