//! The image of a table, a slice of signed 32-bit numbers: where its sections are, and whether each record keeps the
//! rules of its section.
#![tactic(auto)]

mod breaking;
mod deciding;
mod image;
mod kinds;
mod numbers;
mod raw;
mod reading;
mod rules;
mod sections;
mod spot;
mod spotting;

pub use image::Image;
pub use kinds::{LexerAction, StateKind, TransitionKind};
pub use raw::{Interval, RawAction, RawMode, RawRule, RawState, RawTransition, Record};
pub use sections::Section;
pub use spot::Spot;
pub use spotting::spot_at;
