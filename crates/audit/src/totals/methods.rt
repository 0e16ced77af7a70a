ghost use Rattle.std.specs.Prelude.{◌≡◌, ℕ, ◌<◌, List, [], ◌∷◌, length, Some, None};
ghost use Rattle.audit.specs.Lines.{lines_of, left, bytes_left};
ghost use Rattle.audit.specs.Reports.{Audited};
ghost use Rattle.audit.specs.Shown.{totals_line};
ghost use Rattle.audit.specs.Totals.{counted, total_in, total_of, Fit};

use super::{Audit, Totals};
use crate::lines::Lines;
use crate::report::{Read, Report, audit_line};
use std::fmt;

impl Totals {
    // The totals with one more line, by its report.
    fn counting(self, report: Report) -> Totals
        requires { Fit (counted self report) }
        ensures { result ≡ counted self report }
    {
        let lines = self.lines + 1;
        match report {
            Ok(Read { symbols, .. }) => Totals {
                lines,
                symbols: self.symbols + symbols,
                ..self
            },
            Err(_) => Totals {
                lines,
                refused: self.refused + 1,
                ..self
            },
        }
    }
}

impl<'a> Audit<'a> {
    /// An audit that begins at the first line.
    pub fn of(recording: &'a [u8]) -> Audit<'a>
        ensures lines { left result.ahead ≡ lines_of recording.now }
        ensures bytes { bytes_left result.ahead ≡ length recording.now }
        ensures totals { result.totals ≡ total_in [] }
        ensures recording { result.ahead.recording.now ≡ recording.now }
    {
        Audit {
            ahead: Lines::of(recording),
            totals: Totals::default(),
        }
    }

    /// What there is to say of the next line, or `None` after the last.
    pub fn next_report(&mut self) -> Option<Report>
        ensures audits { elim result [
          | None ↦ (left self.old.ahead ≡ []) × (left self.new.ahead ≡ [])
          | Some report ↦ ((line : List ℕ) × (left self.old.ahead ≡ line ∷ left self.new.ahead) × Audited line report)
        ] }
        ensures totals { elim result [
          | None ↦ self.new.totals ≡ self.old.totals
          | Some report ↦ self.new.totals ≡ counted self.old.totals report
        ] }
        ensures bytes { elim result [
          | None ↦ (bytes_left self.old.ahead ≡ 0) × (bytes_left self.new.ahead ≡ 0)
          | Some _ ↦ bytes_left self.new.ahead < bytes_left self.old.ahead
        ] }
        ensures recording { self.new.ahead.recording.now ≡ self.old.ahead.recording.now }
    {
        let line = self.ahead.next_line()?;
        let report = audit_line(line);
        self.totals = self.totals.counting(report);
        Some(report)
    }

    /// The totals of the lines that were reported so far.
    pub fn totals(&self) -> Totals
        ensures value { result ≡ self.now.totals }
        ensures whole { left self.now.ahead ≡ [] → result ≡ total_of self.now.ahead.recording.now }
    {
        self.totals
    }
}

/// The totals of a whole recording: each of its lines is audited.
pub fn audit_recording(recording: &[u8]) -> Totals
    ensures { result ≡ total_of recording.now }
{
    let mut audit = Audit::of(recording);
    // Not a `fold` of reports: that the sums fit is known of an audit, and not of totals alone.
    while let Some(_report) = audit.next_report() {}
    audit.totals()
}

impl fmt::Display for Totals {
    ghost output = { λ t. Some (totals_line t) };

    fn fmt<W: fmt::Write>(&self, f: &mut fmt::Formatter<W>) -> fmt::Result {
        let Totals {
            lines,
            symbols,
            refused,
        } = *self;
        write!(f, "{lines} lines, {symbols} symbols, {refused} refused")
    }
}
