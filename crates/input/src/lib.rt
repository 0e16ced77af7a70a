#![tactic(auto)]

mod array;
mod fault;
mod judge;
mod source;
mod utf8;

pub use array::ArraySource;
pub use fault::{Fault, Notice, Part};
pub use judge::{Judge, OpenJudge, Question, SeatJudge};
pub use source::{MAX_LENGTH, MAX_SYMBOL, Source};
pub use utf8::Utf8Source;
