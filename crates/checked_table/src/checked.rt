ghost use Rattle.std.specs.Prelude.{◌≡◌};
ghost use Rattle.checked_table.specs.Means.{atn_in};
ghost use Rattle.checked_table.specs.Steps.{NoRound};

use crate::records::Records;
use std::ops::Deref;

mod laws;
mod opening;

/// A checked table over a lent image: every value of it keeps the rules.
#[derive(Drop)]
pub struct Table<'a> {
    records: Records<'a>,
    ghost ends: { NoRound (atn_in records) },
}

// A table answers of its records what they answer themselves.
impl<'a> Deref for Table<'a> {
    type Target = Records<'a>;

    ghost deref_gives = { λ table records. records ≡ table.records };

    fn deref(&self) -> &Records<'a> {
        &self.records
    }
}
