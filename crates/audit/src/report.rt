ghost use Rattle.std.specs.Prelude.{Some};
ghost use Rattle.audit.specs.Reports.{Audited};
ghost use Rattle.audit.specs.Shown.{read_line, report_line};

use crate::walking::walk;
use input::{Fault, Utf8Source};
use std::fmt;

/// What was read of a line that is a text: how many symbols and how many bytes it has.
#[derive(Clone, Copy, PartialEq, Eq, Debug)]
pub struct Read {
    pub symbols: usize,
    pub bytes: usize,
}

/// What there is to say of one line: what was read, or why it is no text.
pub type Report = Result<Read, Fault>;

/// Opens a line as a text in UTF-8 and walks it to its end.
pub fn audit_line(line: &[u8]) -> Report
    ensures { Audited line.now result }
{
    let mut source = Utf8Source::try_from(line)?;
    Ok(Read {
        symbols: walk(&mut source).symbols,
        bytes: line.len(),
    })
}

impl fmt::Display for Read {
    ghost output = { λ r. Some (read_line r) };

    fn fmt<W: fmt::Write>(&self, f: &mut fmt::Formatter<W>) -> fmt::Result {
        let Read { symbols, bytes } = *self;
        write!(f, "{symbols} symbols, {bytes} bytes")
    }
}

/// A report as it is printed.
// A type of its own: a `Report` is a `Result`, which has no `Display`.
#[derive(Clone, Copy, PartialEq, Eq, Debug)]
pub struct ReportLine(pub Report);

impl fmt::Display for ReportLine {
    ghost output = { λ line. Some (report_line line.0) };

    fn fmt<W: fmt::Write>(&self, f: &mut fmt::Formatter<W>) -> fmt::Result {
        match self.0 {
            Ok(read) => write!(f, "{read}"),
            Err(fault) => write!(f, "{fault}"),
        }
    }
}
