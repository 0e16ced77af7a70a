ghost use Rattle.std.specs.Prelude.{◌≡◌, Some};
ghost use Rattle.input.specs.Faults.{notice, told};
ghost use Rattle.input.specs.Words.{line_of, name_of, words_of};

use crate::source::MAX_LENGTH;
use std::error::Error;
use std::fmt;

/// The part of the work that a fault is about.
#[derive(Clone, Copy, PartialEq, Eq, Debug)]
pub enum Part {
    Table,
    Text,
    Run,
}

/// Why a call was refused, by number. What a case holds is the place it names: the text's, where
/// nothing else is said.
#[derive(Clone, Copy, PartialEq, Eq, Debug)]
pub enum Fault {
    /// 1: a table ends before its sections are complete; the place is its length.
    ImageEndsEarly(usize),
    /// 2: a count of a table is outside its limits; the place is its index.
    CountOutOfRange(usize),
    /// 3: numbers are left over after a table; the place is the index of the first.
    NumbersLeftOver(usize),
    /// 4: a record of a table breaks a rule; the place is the index where it starts.
    RecordBreaksRule(usize),
    /// 5: a table goes round silently; the place is the lowest state that does.
    GoesRound(usize),
    /// 6: there is no such mode.
    NoSuchMode(usize),
    /// 7: a number is no symbol, or bytes are not well-formed; the place is where the first such starts.
    BadSymbol(usize),
    /// 8: a text has more than 1,048,576 numbers or bytes; the place is 1,048,576.
    TextTooLong,
    /// 9: a judge would have to be asked past the end of the text.
    JudgeAtEnd(usize),
    /// 10: a set would get a 257th configuration.
    SetFull(usize),
    /// 11: a configuration would get a 17th return state.
    ReturnsFull(usize),
    /// 12: a configuration would get a ninth action.
    ActionsFull(usize),
    /// 13: the line or the column is above 2,000,000,000.
    PositionTooLarge(usize),
    /// 14: the first work list has fewer than 256 entries.
    FirstListShort(usize),
    /// 15: the second work list has fewer than 256 entries.
    SecondListShort(usize),
}

/// What a fault tells: its number, the place it names, and the part it is about.
#[derive(Clone, Copy, PartialEq, Eq, Debug)]
pub struct Notice {
    pub number: u32,
    pub place: usize,
    pub part: Part,
}

impl Notice {
    fn of(number: u32, place: usize, part: Part) -> Notice
        ensures { result ≡ notice number place part }
    {
        Notice {
            number,
            place,
            part,
        }
    }
}

impl Fault {
    /// What the fault tells.
    pub fn told(&self) -> Notice
        ensures { result ≡ told self.now }
    {
        match *self {
            Fault::ImageEndsEarly(place) => Notice::of(1, place, Part::Table),
            Fault::CountOutOfRange(place) => Notice::of(2, place, Part::Table),
            Fault::NumbersLeftOver(place) => Notice::of(3, place, Part::Table),
            Fault::RecordBreaksRule(place) => Notice::of(4, place, Part::Table),
            Fault::GoesRound(place) => Notice::of(5, place, Part::Table),
            Fault::NoSuchMode(place) => Notice::of(6, place, Part::Run),
            Fault::BadSymbol(place) => Notice::of(7, place, Part::Text),
            Fault::TextTooLong => Notice::of(8, MAX_LENGTH, Part::Text),
            Fault::JudgeAtEnd(place) => Notice::of(9, place, Part::Run),
            Fault::SetFull(place) => Notice::of(10, place, Part::Run),
            Fault::ReturnsFull(place) => Notice::of(11, place, Part::Run),
            Fault::ActionsFull(place) => Notice::of(12, place, Part::Run),
            Fault::PositionTooLarge(place) => Notice::of(13, place, Part::Run),
            Fault::FirstListShort(place) => Notice::of(14, place, Part::Run),
            Fault::SecondListShort(place) => Notice::of(15, place, Part::Run),
        }
    }

    /// What went wrong, in words.
    pub fn words(&self) -> &'static str
        ensures { result.now ≡ words_of self.now }
    {
        match *self {
            Fault::ImageEndsEarly(_) => "the table ends before its sections are complete",
            Fault::CountOutOfRange(_) => "a count of the table is outside its limits",
            Fault::NumbersLeftOver(_) => "numbers are left over after the table's last section",
            Fault::RecordBreaksRule(_) => "a record of the table breaks a rule",
            Fault::GoesRound(_) => "the table can go round without reading a symbol",
            Fault::NoSuchMode(_) => "the table has no such mode",
            Fault::BadSymbol(_) => "not a symbol, or not well-formed UTF-8",
            Fault::TextTooLong => "longer than 1048576 numbers or bytes",
            Fault::JudgeAtEnd(_) => "a predicate would be asked past the end of the text",
            Fault::SetFull(_) => "more than 256 configurations",
            Fault::ReturnsFull(_) => "more than 16 return states",
            Fault::ActionsFull(_) => "more than 8 actions",
            Fault::PositionTooLarge(_) => "line or column above 2000000000",
            Fault::FirstListShort(_) => "the first work list has fewer than 256 entries",
            Fault::SecondListShort(_) => "the second work list has fewer than 256 entries",
        }
    }
}

impl Part {
    /// The part's name.
    pub fn name(&self) -> &'static str
        ensures { result.now ≡ name_of self.now }
    {
        match *self {
            Part::Table => "table",
            Part::Text => "text",
            Part::Run => "run",
        }
    }
}

impl fmt::Display for Part {
    ghost output = { λ p. Some (name_of p) };

    fn fmt<W: fmt::Write>(&self, f: &mut fmt::Formatter<W>) -> fmt::Result {
        f.write_str(self.name())
    }
}

impl fmt::Display for Fault {
    ghost output = { λ f. Some (line_of f) };

    fn fmt<W: fmt::Write>(&self, f: &mut fmt::Formatter<W>) -> fmt::Result {
        let Notice {
            number,
            place,
            part,
        } = self.told();
        let words = self.words();
        write!(f, "refused {number} at {place} in {part}: {words}")
    }
}

impl Error for Fault {}
