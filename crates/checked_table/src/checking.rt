ghost use Rattle.input.specs.Faults.{told};
ghost use Rattle.std.specs.Prelude.{◌↔◌, IsOk, OnOk, IfErr};
ghost use Rattle.checked_table.specs.Checking.{Keeps, Faulty};

use crate::records::Records;
use crate::rounding::lowest_round;
use image::Image;
use input::Fault;
use table::Sections;

/// Checks an image: it passes exactly when it keeps the rules of a table, else the first fault is told.
// `keeps` is a half of `passes`, in the form in which a caller that opens the table finds it.
pub fn check(image: &[i32]) -> Result<(), Fault>
    ensures passes { IsOk result ↔ Keeps image.now }
    ensures keeps { OnOk result (Keeps image.now) }
    ensures tells { IfErr result (λ fault. Faulty image.now (told fault)) }
{
    let sections = Sections::of(image)?;
    let image = Image::over(image, sections);
    if let Some(at) = image.broken_place() {
        return Err(Fault::RecordBreaksRule(at));
    }
    let records = Records::over(image);
    match lowest_round(&records) {
        Some(state) => Err(Fault::GoesRound(state)),
        None => Ok(()),
    }
}
