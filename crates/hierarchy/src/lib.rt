//! Cells in cells: the order in which they are checked, each behind those that stand in it, or the first fault of a netlist
//! and its rules. Instances may be of unknown cells, or tie another count of nets; a cell may contain itself, or be too
//! deep; and a rule may name what is not there.
#![tactic(auto)]

mod cards;
mod chain;
mod faults;
mod held;
mod lines;
mod listing;
mod lists;
mod lookups;
mod missing_names;
mod nested;
mod ordered;
mod sets;
mod tables;

pub use faults::HierFault;
pub use lookups::MissingName;
pub use missing_names::missing_name;
pub use ordered::order;
