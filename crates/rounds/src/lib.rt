//! Whether an automaton with calls can go round silently, without reading; and where it cannot, a
//! rank of its states, and a measure that every silent step takes down.
#![tactic(auto)]

mod automaton;
mod edges;
mod exits;
mod laws;
mod passing;
mod round;
mod search;
#[cfg(test)]
mod tests;

pub use automaton::Automaton;
pub use laws::{ranks_fall, rounds_are_cycles, steps_fall};
pub use passing::Passing;
pub use round::{MAX_STATES, goes_round};
