use crate::{Audit, Lines, Read, Totals, audit_recording};
use input::Fault;
use std::process::Abort;

// Checks that a recording has the expected lines, and no other.
fn check_lines(rt: &impl Abort, recording: &[u8], expected: &[&[u8]]) {
    let mut lines = Lines::of(recording);
    for line in expected {
        assert_eq!(rt; lines.next_line(), Some(*line));
    }
    assert!(rt; lines.next_line().is_none());
}

// How many lines a recording has.
fn count(recording: &[u8]) -> usize {
    Lines::of(recording).count()
}

#[test]
fn recordings_are_cut_into_lines(rt: HostRuntime) {
    check_lines(&rt, b"", &[]);
    check_lines(&rt, b"a\n", &[b"a"]);
    check_lines(&rt, b"a", &[b"a"]);
    check_lines(&rt, b"\n\n", &[b"", b""]);
    check_lines(&rt, b"a\nbc", &[b"a", b"bc"]);
}

#[test]
fn lines_are_counted(rt: HostRuntime) {
    assert_eq!(rt; count(b"a\n\nbc"), 3);
}

// Three lines, of which the second is no text.
const MIXED: &[u8] = b"ab\n\xff\n\xc3\xa9";

#[test]
fn lines_are_reported_in_order(rt: HostRuntime) {
    let mut audit = Audit::of(MIXED);
    assert_eq!(rt;
        audit.next_report(),
        Some(Ok(Read {
            symbols: 2,
            bytes: 2,
        }))
    );
    assert_eq!(rt; audit.next_report(), Some(Err(Fault::BadSymbol(0))));
    assert_eq!(rt;
        audit.totals(),
        Totals {
            lines: 2,
            symbols: 2,
            refused: 1,
        }
    );
    assert_eq!(rt;
        audit.next_report(),
        Some(Ok(Read {
            symbols: 1,
            bytes: 2,
        }))
    );
    assert_eq!(rt; audit.next_report(), None);
}

#[test]
fn recordings_are_totalled(rt: HostRuntime) {
    assert_eq!(rt;
        audit_recording(MIXED),
        Totals {
            lines: 3,
            symbols: 3,
            refused: 1,
        }
    );
    assert_eq!(rt;
        audit_recording(b""),
        Totals {
            lines: 0,
            symbols: 0,
            refused: 0,
        }
    );
}
