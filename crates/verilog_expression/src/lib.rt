//! Expressions of gate-level Verilog, read token by token by their grammar.
#![tactic(auto)]

mod laws;
mod limits;
mod operators;
mod progress;
mod reading;
mod tree;

pub use laws::{good_beginnings, one_expression};
pub use limits::{Counts, count};
pub use progress::Progress;
pub use reading::{begin, end, is_within, take};
pub use tree::Expression;
