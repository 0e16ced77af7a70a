ghost use Rattle.checked_table.specs.Checking.{Keeps};
ghost use Rattle.checked_table.specs.Decoding.{meaning};
ghost use Rattle.checked_table.specs.Tables.{atn};
ghost use Rattle.std.specs.Prelude.{◌≡◌};

use crate::checked::Table;
use crate::records::Records;
use image::Image;
use table::Sections;

impl<'a> Table<'a> {
    /// The table that an image means. The image has passed its check.
    pub fn open(image: &'a [i32]) -> Table<'a>
        requires { Keeps image.now }
        ensures { atn result ≡ meaning image.now }
    {
        let Ok(sections) = Sections::of(image) else {
            unreachable()
        };
        let records = Records::over(Image::over(image, sections));
        Table { records }
    }
}
