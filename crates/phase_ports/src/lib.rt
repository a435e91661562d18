//! Which nets are observed in a phase of a cell, and what its output ports ought to have there: for any comparison of its
//! circuit, with devices, holds, instances and whole instances.
#![tactic(auto)]

mod dontcares;
mod instances;
mod laws;
mod marks;
mod observe_lines;
mod observed;
mod outputs;
mod port_list;

pub use dontcares::dontcare_bits;
pub use laws::ports_within;
pub use observe_lines::is_observed_port;
pub use observed::{marked_nets, observed_nets};
pub use outputs::output_wishes;
pub use port_list::{Port, input_signal, output_signal, ports_by};
