//! Which ports of a cell are linked to which of its outputs in each phase: by chains of arcs inside, by the structure of the
//! cell's model, or since a constraint names the port.
#![tactic(auto)]

mod arcs;
mod cell_links;
mod cover_graph;
mod links;
mod named;
mod reaching;

pub use cell_links::port_links;
pub use links::{PortLink, phase_links};
pub use named::named_ports;
