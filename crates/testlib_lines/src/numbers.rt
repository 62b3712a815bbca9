// The numbers of a line, read one after the other, in two ways: `Numbers` refuses what is no number of the type that is asked for,
// `LenientNumbers` refuses nothing.
ghost use Rattle.std.specs.Prelude.{◌≡◌, ◌≢◌, ◌≤◌, ◌<◌, ◌-◌, IfOk, IsTrue, MatchResult, eqb, false, length, min, true, vec_len};
ghost use Rattle.std.specs.List.{AllWithin, HoldsAt};
ghost use Rattle.std.specs.Str.Iter.{split_has_more, split_text};
ghost use Rattle.testlib_lines.specs.Lines.{numbers_in};
ghost use Rattle.testlib_lines.specs.declared.numbers.LineError.TheVariants.{LeftOver};

use std::alloc::{AllocError, Global};
use std::str::{FromStr, Split};
use thiserror::Error;

// Why a line is not of the form that is read.
#[derive(Clone, Copy, Debug, PartialEq, Eq, Error)]
pub enum LineError {
    #[error("a number is missing")]
    Missing,
    #[error("no number, or one outside the range of its type")]
    NotANumber,
    #[error("more stands behind the last number")]
    LeftOver,
    #[error(transparent)]
    OutOfMemory(#[from(alloc)] AllocError),
}

// What of a line has not been read, where a number that is missing, or is none of its type, is an error.
#[derive(Drop)]
pub struct Numbers<'a> {
    words: Split<'a, char>,
    alloc: Global,
}

impl<'a> Numbers<'a> {
    pub fn new(alloc: Global, line: &'a str) -> Self
        ensures text { split_text result.words ≡ line.now }
        ensures more { IsTrue (split_has_more result.words) }
    {
        Numbers {
            words: line.split(' '),
            alloc,
        }
    }

    pub fn alloc(&self) -> Global
        ensures { result ≡ self.now.alloc }
    {
        self.alloc
    }

    // The next number.
    // Kept beside `parse`: it joins `next`, which gives an Option, and `parse`, whose error is each type's own, to one LineError.
    pub fn number<N: FromStr>(&mut self) -> Result<N, LineError>
    where
        N::Err: Drop,
        ensures { IfOk result (λ _. IsTrue (split_has_more self.old.words)) }
    {
        let word = self.words.next().ok_or(LineError::Missing)?;
        word.parse().map_err(|_| LineError::NotANumber)
    }

    // The next numbers, as samples.
    pub fn samples(&mut self, count: usize) -> Result<Vec<u16>, LineError>
        ensures { IfOk result (λ samples. vec_len samples ≡ count) }
    {
        let alloc = self.alloc;
        (0..count).map(|_| self.number()).try_collect(alloc)
    }

    // All numbers that are left, as samples.
    pub fn rest(self) -> Result<Vec<u16>, LineError>
        ensures { IfOk result (λ samples. IsTrue (split_has_more self.entry.words) → 0 < vec_len samples) }
    {
        let Numbers { words, alloc } = self;
        words
            .map(|word| word.parse().map_err(|_| LineError::NotANumber))
            .try_collect(alloc)
    }

    // That no number is left.
    pub fn end(mut self) -> Result<(), LineError>
        ensures { MatchResult result (λ _. split_has_more self.entry.words ≡ false) (λ e. (e ≡ LeftOver) × IsTrue (split_has_more self.entry.words)) }
    {
        match self.words.next() {
            None => Ok(()),
            Some(_) => Err(LineError::LeftOver),
        }
    }
}

// What is read where a line has no number: no number of a line is as large.
pub const NONE: u64 = 10_000_000_000_000_000;

// What of a line has not been read, where no line is refused: a number that is missing or has no digit is NONE, what follows its digits is passed over,
// and one that is too large for its type wraps. The stored cases are read so since the first of them.
// A line need not be text: what is no digit and no blank ends a number.
#[derive(Drop)]
pub struct LenientNumbers<'a> {
    rest: &'a [u8],
    alloc: Global,
}

// Where the first number of a line ends.
fn first_end(line: &[u8]) -> usize
    ensures within { result ≤ length line.now }
    ensures before { AllWithin (λ byte. byte ≢ 32) line.now 0 result }
    ensures at { result < length line.now → HoldsAt (λ byte. byte ≡ 32) line.now result }
{
    line.iter()
        .position(|byte| *byte == b' ')
        .unwrap_or(line.len())
}

impl<'a> LenientNumbers<'a> {
    pub fn new(alloc: Global, line: &'a [u8]) -> Self {
        LenientNumbers { rest: line, alloc }
    }

    pub fn alloc(&self) -> Global
        ensures { result ≡ self.now.alloc }
    {
        self.alloc
    }

    // The next number as it is written, empty where none is left.
    pub fn text(&mut self) -> &'a [u8]
        ensures { numbers_in self.new.rest.now ≡ numbers_in self.old.rest.now - 1 }
    {
        let line = self.rest;
        let end = first_end(line);
        self.rest = line.get(end + 1..).unwrap_or(b"");
        &line[..end]
    }

    // The next number.
    pub fn number(&mut self) -> u64
        ensures bound { result ≤ 10000000000000000 }
        ensures taken { numbers_in self.new.rest.now ≡ numbers_in self.old.rest.now - 1 }
    {
        value(self.text())
    }

    // The next number, as a size.
    pub fn size(&mut self) -> usize
        ensures { result ≤ 10000000000000000 }
    {
        self.number() as usize
    }

    // The next number, its lowest 32 bits.
    pub fn word(&mut self) -> u32 {
        (self.number() % 0x1_0000_0000) as u32
    }

    // The next number, its lowest 16 bits.
    pub fn sample(&mut self) -> u16 {
        (self.number() % 0x1_0000) as u16
    }

    // The next number, its lowest 8 bits.
    pub fn byte(&mut self) -> u8 {
        (self.number() % 0x100) as u8
    }

    // The next numbers, as samples.
    pub fn samples(&mut self, count: usize) -> Result<Vec<u16>, AllocError>
        ensures { IfOk result (λ samples. vec_len samples ≡ count) }
    {
        let alloc = self.alloc;
        (0..count).map(|_| self.sample()).collect(alloc)
    }

    // The next numbers, each as `kept` has it: `most` of them, or as many as are left.
    fn up_to<T: Copy, F: Fn(u64) -> T>(
        &mut self,
        most: usize,
        kept: F,
    ) -> Result<Vec<T>, AllocError>
        requires { F.IsAlwaysCallable kept }
        ensures { IfOk result (λ items. vec_len items ≡ min most (numbers_in self.old.rest.now)) }
    {
        let mut items = Vec::new(self.alloc);
        while items.len() < most && !self.is_end() {
            items.push(kept(self.number()))?;
        }
        Ok(items)
    }

    // The next numbers, as samples: `most` of them, or as many as are left.
    pub fn samples_up_to(&mut self, most: usize) -> Result<Vec<u16>, AllocError>
        ensures { IfOk result (λ samples. vec_len samples ≡ min most (numbers_in self.old.rest.now)) }
    {
        self.up_to(most, |number| (number % 0x1_0000) as u16)
    }

    // The numbers that are left, the first `most` of them.
    pub fn rest(mut self, most: usize) -> Result<Vec<u64>, AllocError>
        ensures { IfOk result (λ numbers. vec_len numbers ≡ min most (numbers_in self.entry.rest.now)) }
    {
        self.up_to(most, |number| number)
    }

    // Whether no number is left.
    pub fn is_end(&self) -> bool
        ensures { result ≡ eqb (numbers_in self.now.rest.now) 0 }
    {
        self.rest.is_empty()
    }
}

// A number with one digit more; one of 15 digits takes no more.
fn with_digit(value: u64, digit: u32) -> u64
    requires { value ≤ 10000000000000000 }
    ensures { result ≤ 10000000000000000 }
{
    if 100_000_000_000_000 <= value {
        return value;
    }
    value * 10 + u64::from(digit)
}

// The digits that a text begins with as a number, at most 15 of them behind its zeros; NONE where there are none.
pub fn value(text: &[u8]) -> u64
    ensures { result ≤ 10000000000000000 }
{
    if !text.first().is_some_and(|byte| byte.is_ascii_digit()) {
        return NONE;
    }
    let mut value = 0;
    for digit in text.iter().map_while(|byte| char::from(*byte).to_digit(10)) {
        value = with_digit(value, digit);
    }
    value
}

// The number that a text begins with, the least i32 where an i32 has no room for it.
fn size_as_i32(text: &[u8]) -> i32 {
    i32::try_from(value(text)).unwrap_or(i32::MIN)
}

// The number that a text begins with, which may have a minus sign but no plus.
pub fn signed(text: &[u8]) -> i32 {
    match text.strip_prefix(b"-") {
        Some(size) => size_as_i32(size).wrapping_neg(),
        None => size_as_i32(text),
    }
}
