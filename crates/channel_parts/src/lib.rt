//! Channel-connected parts, the law that a circuit whose nets have ranks has exactly one solution, and the classes of parts:
//! static gates, pass networks and domino stages. Known nets are those of `known_nets`.
#![tactic(auto)]

mod assembly;
mod channels;
mod class;
mod class_lines;
mod cycle;
mod grouping;
mod judging;
mod known_bits;
mod least;
mod links;
mod listing;
mod net_arcs;
mod net_kinds;
mod part;
mod ranking;
mod sources;
mod switching;
mod unions;

pub use assembly::{parts, parts_with_keepers};
pub use class::{Class, ClassLine};
pub use class_lines::classes;
pub use known_nets::known_nets;
pub use least::least_nets;
pub use listing::in_order;
pub use net_arcs::{net_graph, part_number};
pub use part::{Part, PartFault, Parts};
