//! Checked tables: what an image means, its check, and access to its records.
#![tactic(auto)]

mod checked;
mod checking;
mod counts;
mod laws;
mod parts;
mod passings;
mod records;
mod rounding;
mod silent;

pub use checked::Table;
pub use checking::check;
pub use counts::Counts;
pub use image::{LexerAction, StateKind, TransitionKind};
pub use laws::one_fault_is_told;
pub use parts::{Rule, State, Transition};
pub use records::Records;
