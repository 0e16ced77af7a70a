//! Tests of the crate `input`. It has nothing for other crates.
#![tactic(auto)]

#[cfg(test)]
mod arrays;
#[cfg(test)]
mod faults;
#[cfg(test)]
mod judges;
#[cfg(test)]
mod limits;
#[cfg(test)]
mod moves;
#[cfg(test)]
mod reading;
#[cfg(test)]
mod rows;
