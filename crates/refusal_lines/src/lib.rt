//! The lines that tell why a file is refused: its name, the line of the fault, and what is wrong there.
#![tactic(auto)]

mod blif;
mod lines;
mod models;
mod rules;
mod spice;
mod verilog;

pub use blif::blif_refusal;
pub use lines::{join, named, plain, refusal};
pub use models::models_refusal;
pub use rules::rules_refusal;
pub use spice::spice_refusal;
pub use verilog::verilog_refusal;
