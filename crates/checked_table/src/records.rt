ghost use Rattle.image.specs.Keeping.{RecordsKeep};
ghost use Rattle.image.specs.Spans.{sections_of};
ghost use Rattle.std.specs.Prelude.{◌≡◌};

use image::Image;

mod accessors;

/// An image whose records keep the rules of their sections.
#[derive(Drop)]
pub struct Records<'a> {
    image: Image<'a>,
    ghost laid: { image.sections ≡ sections_of image.numbers.now },
    ghost keep: { RecordsKeep image.numbers.now image.sections },
}
