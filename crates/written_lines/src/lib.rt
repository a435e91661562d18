//! A cell that is written as a BLIF model, line by line; or the line that says why it is not.
#![tactic(auto)]

mod cuts;
mod refusals;
mod told;

pub use told::{WrittenLines, written_lines};
