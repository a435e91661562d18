//! What each line of a rules file says by its words.
#![tactic(auto)]

mod circuit_lines;
mod clocked_lines;
mod entry;
mod long_lines;
mod words;

pub use entry::{ByScale, ClockBit, Entry, Signed};
pub use long_lines::read_entry;
