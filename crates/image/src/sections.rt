ghost use Rattle.std.specs.Prelude.{◌≡◌, ◌+◌, ◌*◌, ◌<◌};
ghost use Rattle.image.specs.Spans.{order_of, span_of, width_of, PlacedWithin};

use table::{Sections, Span};

/// A section of an image.
#[derive(Clone, Copy, PartialEq, Eq, Debug)]
pub enum Section {
    States,
    Transitions,
    Intervals,
    Modes,
    Rules,
    Actions,
}

impl Section {
    /// All sections, in order.
    pub const ALL: [Section; 6] = [
        Section::States,
        Section::Transitions,
        Section::Intervals,
        Section::Modes,
        Section::Rules,
        Section::Actions,
    ];

    /// The section of an order: 0 is the first.
    pub fn of_order(i: usize) -> Section
        requires { i < 6 }
        ensures { order_of result ≡ i }
    {
        Section::ALL[i]
    }

    /// How many numbers each of its records has.
    // The layout, in `table`, has the same widths among its forms, and the proofs say that they agree.
    pub fn width(self) -> usize
        ensures { result ≡ width_of self }
    {
        match self {
            Section::States => 5,
            Section::Transitions => 4,
            Section::Intervals => 2,
            Section::Modes => 1,
            Section::Rules => 3,
            Section::Actions => 2,
        }
    }

    /// Where its records are.
    pub fn span(self, sections: &Sections) -> Span
        ensures { result ≡ span_of sections.now self }
    {
        match self {
            Section::States => sections.states,
            Section::Transitions => sections.transitions,
            Section::Intervals => sections.intervals,
            Section::Modes => sections.modes,
            Section::Rules => sections.rules,
            Section::Actions => sections.actions,
        }
    }

    /// Where its record k starts.
    pub fn place(self, sections: &Sections, k: usize) -> usize
        requires placed { PlacedWithin sections.now }
        requires inside { k < (span_of sections.now self).count }
        ensures { result ≡ (span_of sections.now self).start + width_of self * k }
    {
        self.span(sections).start + self.width() * k
    }
}
