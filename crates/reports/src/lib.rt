//! Reports on files, as the programs print them: what an audit of a recording says, and how long a walk takes.
// The functions have no clauses: what a file holds, a clock tells and a program prints is in no proof.
#![tactic(auto)]

#[cfg(test)]
mod tests;

use anyhow::anyhow;
use audit::{Audit, ReportLine, Walked, walk};
use input::{Source, Utf8Source};
use std::fs;
use std::time::Instant;

// How often a text is walked to measure it; the fastest walk counts.
const WALKS: u32 = 100;

/// The bytes of a file.
// Not `context`, which keeps the reason as a cause: it is to be told in the same line.
pub fn read_file(rt: &HostRuntime, path: &str) -> anyhow::Result<Vec<u8>> {
    fs::read(rt, path).map_err(|error| anyhow!("cannot read {path}: {error}"))
}

/// Prints what there is to say of each line of a file, and the totals.
pub fn audit_file(rt: &HostRuntime, path: &str) -> anyhow::Result<()> {
    let recording = read_file(rt, path)?;
    let mut audit = Audit::of(recording.as_slice());
    while let Some(report) = audit.next_report() {
        let n = audit.totals().lines;
        let said = ReportLine(report);
        println!(rt; "line {n}: {said}")?;
    }
    let totals = audit.totals();
    println!(rt; "{totals}")?;
    Ok(())
}

/// Walks a file as one text, and prints how long a symbol took in the fastest walk.
pub fn time_file(rt: &HostRuntime, path: &str) -> anyhow::Result<()> {
    let bytes = read_file(rt, path)?;
    let mut source = Utf8Source::try_from(bytes.as_slice())?;
    let mut fastest = u128::MAX;
    let mut walked = walk(&mut source);
    for _ in 0..WALKS {
        source.seek(0);
        let start = Instant::now(rt)?;
        walked = walk(&mut source);
        fastest = fastest.min(start.elapsed(rt)?.as_nanos());
    }
    let Walked { symbols, feeds } = walked;
    let picos = fastest.saturating_mul(1000) / u128::from((symbols as u64).max(1));
    let whole = picos / 1000;
    let part = picos % 1000;
    println!(rt; "{symbols} symbols, {feeds} line feeds: {whole}.{part:03} ns a symbol")?;
    Ok(())
}
