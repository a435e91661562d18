//! Which output ports of a cell are alone in a phase: the net of the port is not known, and no other output port's net is in its
//! part of the kept circuit.
#![tactic(auto)]

mod counts;
mod keep;
mod laws;
mod lone;

pub use keep::keep_lone;
pub use laws::{lone_nets_are_kept, lone_ports_are_alone};
pub use lone::lone_outputs;
