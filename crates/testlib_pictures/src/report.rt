// What is printed of a picture.
use crate::picture::Picture;
use print::{PairText, UnitTotals};
use std::io;

// A line for the picture, and one for each unit: its pair, the twelve totals that were tried and the one that was measured.
pub fn totals(
    rt: &impl Print,
    picture: &Picture,
    tried: &[i64],
    measured: &[i64],
) -> io::Result<()> {
    println!(rt; "{}, depth {}", picture.title, picture.depth)?;
    for (unit, (tried, measured)) in tried.chunks(12).zip(measured).enumerate() {
        let totals = UnitTotals {
            tried,
            measured: *measured,
            trial: Some(picture.trial(unit)),
        };
        println!(rt; "unit {unit}, {}: {totals}", PairText(picture.pair(unit)))?;
    }
    Ok(())
}
