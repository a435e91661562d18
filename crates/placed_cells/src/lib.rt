//! Laws of where the cells of a netlist stand when all instances are unrolled, and of their own nets there. Laws alone, each the
//! contract of a function that does nothing.
#![tactic(auto)]

mod above;
mod cuts;
mod depths;
mod instances;
mod named;
mod rows;
mod splits;

pub use above::{instances_are_shifted, instances_are_tied, nets_above_are_apart};
pub use cuts::cut_shows_inside;
pub use depths::ordered_is_within_depth;
pub use instances::{flat_circuit_shows_inside, instance_is_placed};
pub use named::{assumed_ports_are_there, hold_nets_are_there};
pub use rows::{own_nets_are_apart, own_nets_are_listed, places_are_in_row};
pub use splits::places_in_stand_together;
