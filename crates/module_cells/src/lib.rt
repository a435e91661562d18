//! Cells whose models are modules of gate-level Verilog: one that is equal to its model does what its module means. A law alone, the
//! contract of a function that does nothing.
#![tactic(auto)]

mod laws;

pub use laws::equal_cells_do_as_said;
