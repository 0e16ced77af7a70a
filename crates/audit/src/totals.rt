ghost use Rattle.std.specs.Prelude.{◌≡◌};
ghost use Rattle.audit.specs.Lines.{left};
ghost use Rattle.audit.specs.Totals.{both, total_in, total_of};

use crate::lines::Lines;

mod methods;

pub use methods::audit_recording;

/// How many lines there were, how many symbols were read in them, and how many of the lines were refused.
#[derive(Clone, Copy, PartialEq, Eq, Debug, Default)]
pub struct Totals {
    pub lines: usize,
    pub symbols: usize,
    pub refused: usize,
}

/// An audit of a recording, line by line: the lines that are still to come, and the totals of those before them.
// No `Iterator`: a `for` would borrow the audit, and callers ask for the totals between two lines.
#[derive(Drop)]
pub struct Audit<'a> {
    ahead: Lines<'a>,
    totals: Totals,
    ghost whole: { both totals (total_in (left ahead)) ≡ total_of ahead.recording.now },
}
