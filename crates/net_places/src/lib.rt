//! The places of the unrolled netlist of a cell: the cell and each instance in it, at any depth, with the flat nets of
//! their ports and of their own nets.
#![tactic(auto)]

mod globals;
mod instances;
mod nets;
mod places;
mod ports;
mod unrolled;
mod whole;

pub use instances::flat_instances;
pub use nets::add_inner_nets;
pub use places::Place;
pub use whole::{Unrolled, unroll};
