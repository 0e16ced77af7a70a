//! Reads the text of a file of decimal numbers into 32-bit signed numbers.
#![tactic(auto)]

mod error;
mod numbers;
#[cfg(test)]
mod tests;
mod words;

pub use error::NumbersError;
pub use numbers::read_numbers;
