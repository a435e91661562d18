//! The outputs of a phase joined with those of the phases before: for each signal a function, which becomes 1 where the signal's output is 1 and
//! the constraints are met.
#![tactic(auto)]

mod join;

pub use join::join_outputs;
