ghost use Rattle.std.specs.Prelude.{◌≡◌, Some};
ghost use Rattle.image.specs.Words.{plural_of, singular_of, spot_line};

use crate::sections::Section;
use std::fmt;

/// A spot in an image: the count of a section, one of its records, or past the last section.
// `Past` is a spot like the others, with words of its own, and no failure: not an `Option`.
#[derive(Clone, Copy)]
pub enum Spot {
    Count(Section),
    Record(Section, usize),
    Past,
}

impl Section {
    /// What its records are called.
    pub fn name(self) -> &'static str
        ensures { result.now ≡ plural_of self }
    {
        match self {
            Section::States => "states",
            Section::Transitions => "transitions",
            Section::Intervals => "intervals",
            Section::Modes => "modes",
            Section::Rules => "rules",
            Section::Actions => "actions",
        }
    }

    /// What one of its records is called.
    // Beside `name`, and not made of it: both are words that the library promises, and need no text built for them.
    pub fn record_name(self) -> &'static str
        ensures { result.now ≡ singular_of self }
    {
        match self {
            Section::States => "state",
            Section::Transitions => "transition",
            Section::Intervals => "interval",
            Section::Modes => "mode",
            Section::Rules => "rule",
            Section::Actions => "action",
        }
    }
}

impl fmt::Display for Spot {
    ghost output = { λ s. Some (spot_line s) };

    fn fmt<W: fmt::Write>(&self, f: &mut fmt::Formatter<W>) -> fmt::Result {
        match *self {
            Spot::Count(section) => {
                let name = section.name();
                write!(f, "count of {name}")
            }
            Spot::Record(section, k) => {
                let name = section.record_name();
                write!(f, "{name} {k}")
            }
            Spot::Past => write!(f, "past the last section"),
        }
    }
}
