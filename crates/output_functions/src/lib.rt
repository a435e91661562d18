//! The functions of the outputs of a cell without state, over all its phases, in one store: 1 where some phase that observes the output has its
//! constraints met and gives it 1.
#![tactic(auto)]

mod functions;
mod phase;
mod phases;

pub use functions::{Functions, output_functions};
pub use phase::{Opening, Stop, join_phase};
pub use phases::Phases;
