ghost use Rattle.std.specs.Prelude.{◌≡◌, ◌+◌, ◌*◌, ◌<◌, ◌≤◌, Some};
ghost use Rattle.table.specs.Layout.{number};
ghost use Rattle.image.specs.Numbers.{natural};
ghost use Rattle.image.specs.Spans.{span_at, span_of, width_of, sections_of};
ghost use Rattle.image.specs.Spots.{Chained, Shaped, Lying};

use crate::sections::Section;
use crate::spot::Spot;
use table::{Sections, Span};

// The count at an index; 0 where it is below 0, or none stands there.
fn count_at(image: &[i32], at: usize) -> usize
    ensures is { result ≡ natural (number image.now at) }
    ensures small { result < 2147483648 }
{
    image
        .get(at)
        .and_then(|count| usize::try_from(*count).ok())
        .unwrap_or(0)
}

// Where a section is whose count stands at an index; where none does, it is empty.
fn span_at(image: &[i32], at: usize, section: Section) -> Span
    requires { at < 1000000000000 }
    ensures is { result ≡ span_at image.now at (width_of section) }
    ensures near { (at < result.end) × (result.end ≤ at + 10737418241) }
{
    let count = count_at(image, at);
    let start = at + 1;
    Span {
        start,
        count,
        end: start + section.width() * count,
    }
}

// Where the sections of any image are, as far as its counts tell. Beside `Sections::of`, which refuses an image that is
// not laid out: a spot is asked for in just such images.
fn sections_of(image: &[i32]) -> Sections
    ensures is { result ≡ sections_of image.now }
    ensures chained { Chained result }
    ensures shaped { Shaped result }
{
    let states = span_at(image, 0, Section::States);
    let transitions = span_at(image, states.end, Section::Transitions);
    let intervals = span_at(image, transitions.end, Section::Intervals);
    let modes = span_at(image, intervals.end, Section::Modes);
    let rules = span_at(image, modes.end, Section::Rules);
    let actions = span_at(image, rules.end, Section::Actions);
    Sections {
        states,
        transitions,
        intervals,
        modes,
        rules,
        actions,
    }
}

// In which of so many records of a section a number lies, by how far it is from the first.
fn record_of(section: Section, count: usize, offset: usize) -> usize
    requires { offset < width_of section * count }
    ensures inside { result < count }
    ensures from { width_of section * result ≤ offset }
    ensures to { offset < width_of section * (result + 1) }
{
    offset / section.width()
}

// The spot of an index that lies before the end of a section, and not before its count.
fn spot_in(s: &Sections, section: Section, at: usize) -> Spot
    requires shaped { Shaped s.now }
    requires after { (span_of s.now section).start ≤ at + 1 }
    requires before { at < (span_of s.now section).end }
    ensures { Lying s.now at result }
{
    let span = section.span(s);
    if at < span.start {
        return Spot::Count(section);
    }
    Spot::Record(section, record_of(section, span.count, at - span.start))
}

/// Where in an image an index is.
pub fn spot_at(image: &[i32], at: usize) -> Spot
    ensures { Lying (sections_of image.now) at result }
{
    let s = sections_of(image);
    // As a chain, with `find`, it was tried, and its proof did not close.
    for section in Section::ALL {
        if at < section.span(&s).end {
            return spot_in(&s, section, at);
        }
    }
    Spot::Past
}
