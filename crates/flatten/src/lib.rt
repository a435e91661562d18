//! The flat circuit of a cell, and what stands in its way.
#![tactic(auto)]

mod cells;
mod circuit;
mod devices;
mod faults;
mod kinds;
mod lists;
mod net_names;
mod nets;
mod structures;
mod ties;

pub use circuit::{flat, flat_with, unroll_cell, unrolled_circuit};
pub use faults::FlatFault;
pub use flat_sizes::{FlatSizes, sizes};
pub use structures::{structure, structure_with};
