//! Reads models that are written as modules of gate-level Verilog.
#![tactic(auto)]

mod build;
mod reader;

pub use reader::read_verilog;
pub use verilog_source::VerilogFault;
