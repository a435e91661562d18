//! The drives of a cell's output ports: their nets, which of them are alone inside the cell, the whole outputs that stand at them, and what
//! the facts of the cell say of them.
#![tactic(auto)]

mod drives;
mod laws;
mod lone;
mod nets;
mod outputs;

pub use drives::port_drives;
pub use laws::{output_nets_are_within, port_drives_are_told, whole_drives_are_found};
pub use lone::lone_ports;
pub use nets::output_nets;
pub use outputs::{ToldOutput, told_outputs, whole_drive};
