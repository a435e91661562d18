//! A cell of a netlist and those that stand in it, at any depth.
#![tactic(auto)]

mod below;
mod marks;

pub use below::cells_below;
