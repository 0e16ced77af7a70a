//! Tables: a lexer automaton as a slice of signed 32-bit numbers, its image.
#![tactic(auto)]

mod sections;
#[cfg(test)]
mod tests;

pub use sections::{Sections, Span};
