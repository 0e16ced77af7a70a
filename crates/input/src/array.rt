ghost use Rattle.std.specs.Prelude.{◌≡◌, ◌≤◌, length, MatchResult, OnOk, OnErr, IfErr};
ghost use Rattle.input.specs.Arrays.{Readable, Refused, of_numbers, good_array};
ghost use Rattle.input.specs.Faults.{told};
ghost use Rattle.input.specs.Text.{empty_text};

use crate::fault::Fault;
use crate::source::{MAX_LENGTH, MAX_SYMBOL, Source};

/// A text that is an array of symbols. The places are the indices.
// An index into the whole, and not the rest of it: a source can go back.
#[derive(Drop)]
pub struct ArraySource<'a> {
    numbers: &'a [u32],
    at: usize,
    ghost readable: { Readable numbers.now },
    ghost inside: { at ≤ length numbers.now },
}

// Refuses more than 1,048,576 numbers, and then the first above 1,114,111.
fn check(numbers: &[u32]) -> Result<(), Fault>
    ensures { MatchResult result (λ _. Readable numbers.now) (λ f. Refused numbers.now (told f)) }
{
    if numbers.len() > MAX_LENGTH {
        return Err(Fault::TextTooLong);
    }
    match numbers.iter().position(|x| *x > MAX_SYMBOL) {
        Some(i) => Err(Fault::BadSymbol(i)),
        None => Ok(()),
    }
}

impl<'a> ArraySource<'a> {
    /// A source of the empty text.
    pub fn new() -> ArraySource<'a>
        ensures { of_numbers result.numbers.now result.at ≡ empty_text }
    {
        ArraySource {
            numbers: &[],
            at: 0,
        }
    }

    /// Takes up a text, from its start. Refuses more than 1,048,576 numbers, and then the first
    /// above 1,114,111; the source is then as it was.
    pub fn open(&mut self, numbers: &'a [u32]) -> Result<(), Fault>
        ensures readable { OnOk result (Readable numbers.now) }
        ensures text { OnOk result (of_numbers self.new.numbers.now self.new.at ≡ of_numbers numbers.now 0) }
        ensures refused { IfErr result (λ f. Refused numbers.now (told f)) }
        ensures unchanged { OnErr result (self.new ≡ self.old) }
    {
        check(numbers)?;
        self.numbers = numbers;
        self.at = 0;
        Ok(())
    }
}

/// A text from its start, or why the numbers are none: more than 1,048,576, or else the first above 1,114,111.
impl<'a> TryFrom<&'a [u32]> for ArraySource<'a> {
    type Error = Fault;

    ghost try_from_gives = { λ numbers r. MatchResult r
        (λ s. Readable numbers.now × (of_numbers s.numbers.now s.at ≡ of_numbers numbers.now 0))
        (λ f. Refused numbers.now (told f)) };

    fn try_from(numbers: &'a [u32]) -> Result<ArraySource<'a>, Fault> {
        let mut source = ArraySource::new();
        source.open(numbers)?;
        Ok(source)
    }
}

impl<'a> Source for ArraySource<'a> {
    ghost text = { λ s. of_numbers s.numbers.now s.at };

    ghost good = { λ s. good_array s.numbers.now s.at s.readable s.inside };

    fn look(&self) -> i32 {
        match self.numbers.get(self.at) {
            Some(x) => *x as i32,
            None => -1,
        }
    }

    fn step(&mut self) -> bool {
        if self.at < self.numbers.len() {
            self.at += 1;
            true
        } else {
            false
        }
    }

    #[tactic(auto, using(crate::proofs::Upward::place_of_array))]
    fn place(&self) -> usize {
        self.at
    }

    fn seek(&mut self, place: usize) -> bool {
        if place <= self.numbers.len() {
            self.at = place;
            true
        } else {
            false
        }
    }
}
