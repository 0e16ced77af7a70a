//! Audits a recording: cuts it into lines, walks each line as a text, and counts.
#![tactic(auto)]

mod lines;
mod report;
mod tasks;
#[cfg(test)]
mod tests;
mod totals;
mod walking;

pub use lines::Lines;
pub use report::{Read, Report, ReportLine, audit_line};
pub use tasks::{Task, task_of};
pub use totals::{Audit, Totals, audit_recording};
pub use walking::{Walked, walk};
