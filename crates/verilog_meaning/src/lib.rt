//! What modules of gate-level Verilog mean, by their expressions and gates, and that the flat models of these modules say exactly this.
//! Laws alone, each the contract of a function that does nothing.
#![tactic(auto)]

mod laws;

pub use laws::{covers_mean, equal_cells_do, texts_mean};
