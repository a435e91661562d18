//! The nets of the cells of a netlist, each cell by itself: what each name on its cards is.
#![tactic(auto)]

mod cards;
mod cell_nets;
mod own;
mod places;
mod shared;
mod tables;
mod types;

pub use places::place_net;
pub use shared::SharedNames;
pub use tables::{NetTables, find_net, net_tables};
pub use types::{CellNames, CellNet, CellNets, DeviceNets, InstanceNets};
