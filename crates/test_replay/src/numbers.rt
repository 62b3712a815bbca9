// The calls on numbers.
// Kept: a `parse` for each case, since each names its own fields; a macro would need the same names and their types once more.
use crate::case::{Case, stored};
use cdef_blocks::numbers;
use cdef_spec::WorkingDamping;
use std::alloc::AllocError;
use testlib_lines::numbers::{LenientNumbers, signed, value};

// difference strength damping code answer
#[derive(Clone, Copy)]
pub struct Constrain {
    difference: i32,
    strength: u32,
    damping: WorkingDamping,
    stored: (u64, i32),
    // The answer with no sign allowed, which a refusal's is read as.
    unsigned: u64,
    is_end: bool,
}

impl Case for Constrain {
    fn parse(mut line: LenientNumbers<'_>) -> Result<Self, AllocError> {
        let difference = signed(line.text());
        let strength = line.word();
        let damping = WorkingDamping(line.byte());
        let code = line.number();
        let answer = line.text();
        Ok(Constrain {
            difference,
            strength,
            damping,
            stored: (code, signed(answer)),
            unsigned: value(answer),
            is_end: line.is_end(),
        })
    }

    fn holds(self) -> bool {
        let found = numbers::constrain(self.difference, self.strength, self.damping);
        let is_answer = found.is_ok() || self.unsigned == 0;
        self.is_end && is_answer && stored(found) == self.stored
    }
}

// strength variance code answer
#[derive(Clone, Copy)]
pub struct Adjust {
    strength: u32,
    variance: u32,
    stored: (u64, u64),
    is_end: bool,
}

impl Case for Adjust {
    fn parse(mut line: LenientNumbers<'_>) -> Result<Self, AllocError> {
        Ok(Adjust {
            strength: line.word(),
            variance: line.word(),
            stored: (line.number(), line.number()),
            is_end: line.is_end(),
        })
    }

    fn holds(self) -> bool {
        let found = numbers::adjust(self.strength, self.variance).map(u64::from);
        self.is_end && stored(found) == self.stored
    }
}

// index code answer
#[derive(Clone, Copy)]
pub struct Damping {
    index: u32,
    stored: (u64, u64),
    is_end: bool,
}

impl Case for Damping {
    fn parse(mut line: LenientNumbers<'_>) -> Result<Self, AllocError> {
        Ok(Damping {
            index: line.word(),
            stored: (line.number(), line.number()),
            is_end: line.is_end(),
        })
    }

    fn holds(self) -> bool {
        let found = numbers::damping(self.index).map(|damping| u64::from(damping.0));
        self.is_end && stored(found) == self.stored
    }
}

// v code answer: nothing is rejected
#[derive(Clone, Copy)]
pub struct Log2Floor {
    v: u32,
    stored: (u64, u64),
    is_end: bool,
}

impl Case for Log2Floor {
    fn parse(mut line: LenientNumbers<'_>) -> Result<Self, AllocError> {
        Ok(Log2Floor {
            v: line.word(),
            stored: (line.number(), line.number()),
            is_end: line.is_end(),
        })
    }

    fn holds(self) -> bool {
        self.is_end && (0, u64::from(arith_strength::log2_floor(self.v))) == self.stored
    }
}
