//! Whether the order matters in which input ports of a cell rise within a phase, from the netlist, the models and the rules.
#![tactic(auto)]

mod cells;

pub use cells::{monotone, monotone_made};
