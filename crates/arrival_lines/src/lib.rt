//! Whether the order matters in which input ports rise that are named on the command line, and the line that says so.
#![tactic(auto)]

mod lines;
mod rising;
mod settings;
mod telling;

pub use telling::{ArrivalLine, arrival_told};
