ghost use Rattle.std.specs.Prelude.{MatchOption};
ghost use Rattle.checked_table.specs.Means.{atn_in};
ghost use Rattle.checked_table.specs.Steps.{NoRound, LowestRound};

use crate::passings::note_passings;
use crate::records::Records;
use crate::silent::SilentSteps;
use rounds::{Passing, goes_round};

/// The lowest state that goes round silently, if there is one.
pub fn lowest_round(records: &Records) -> Option<usize>
    ensures { MatchOption result (NoRound (atn_in records.now)) (LowestRound (atn_in records.now)) }
{
    // One note for each of the most transitions that a table may have.
    // Noted once: the search may ask for each transition 4,096 times, and a set may have 8,192 intervals.
    let mut passings = [Passing::Reads; 16384];
    note_passings(records, &mut passings);
    let steps = SilentSteps {
        records,
        passings: &passings,
    };
    goes_round(&steps)
}
