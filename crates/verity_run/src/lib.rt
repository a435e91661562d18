//! The run of the checker, from its words and files to what it writes.
#![tactic(auto)]

mod answers;
mod arrivals;
mod cell_lines;
mod checks;
mod known;
mod messages;
mod models;
mod puts;
mod reads;
mod ready;
mod refusals;
mod replays;
mod report;
mod status;
mod top;
mod writes;

pub use status::Status;
pub use top::run;
