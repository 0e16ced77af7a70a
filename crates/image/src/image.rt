ghost use Rattle.std.specs.Prelude.{◌≡◌, ◌<◌, length};
ghost use Rattle.image.specs.Spans.{Fits, span_of, place_of};

use crate::raw::Record;
use table::Sections;

/// The numbers of an image, and where its sections are.
// Clauses name both fields: the rules are defined over a list of numbers and its sections, as docs/TABLE.md has them.
#[derive(Clone, Copy)]
pub struct Image<'a> {
    pub(crate) numbers: &'a [i32],
    pub(crate) sections: Sections,
    ghost fits: { Fits sections (length numbers.now) },
}

impl<'a> Image<'a> {
    /// The image of numbers that its sections fit.
    pub fn over(numbers: &'a [i32], sections: Sections) -> Image<'a>
        requires { Fits sections (length numbers.now) }
        ensures numbers { result.numbers.now ≡ numbers.now }
        ensures sections { result.sections ≡ sections }
    {
        Image { numbers, sections }
    }
}

impl Image<'_> {
    /// Where its sections are.
    pub fn sections(&self) -> Sections
        ensures { result ≡ self.now.sections }
    {
        self.sections
    }

    /// Record k of the section that such records stand in.
    pub fn record<R: Record>(&self, k: usize) -> R
        requires { k < (span_of self.now.sections R.SECTION).count }
        ensures { result ≡ R.record_at self.now.numbers.now (place_of self.now.sections R.SECTION k) }
    {
        R::read(self.numbers, R::SECTION.place(&self.sections, k))
    }
}
