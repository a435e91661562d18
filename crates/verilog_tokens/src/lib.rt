//! The tokens of a text of gate-level Verilog, read one by one. A token is the bytes of the text and no copy, and nothing
//! is kept of what is read.
#![tactic(auto)]

mod cuts;
mod passed;
mod reader;
mod runs;
mod token;
mod words;

pub use passed::Place;
pub use reader::{begin, next_token};
pub use token::{GateKind, Kind, PartKind, Token};
