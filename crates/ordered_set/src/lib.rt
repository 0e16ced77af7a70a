//! Ordered sets over lent slices: no two members are equal, and they keep the order in which they
//! came.
#![tactic(auto)]

mod element;
mod set;
#[cfg(test)]
mod tests;

pub use element::Element;
pub use set::{Added, OrderedSet};
