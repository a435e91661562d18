//! Laws of a cell that stands in a circuit, and of roots that stand for it: what holds inside the cell, whatever is outside;
//! what the circuit shows where a whole instance drives the cell's outputs in place of its devices; and where the places of a
//! cell's instances are in a larger netlist. Laws alone, each the contract of a function that does nothing.
#![tactic(auto)]

mod inside;
mod places;
mod regions;
mod roots;
mod solutions;

pub use inside::{outside_changes_nothing, placed_cell_stands_alone};
pub use places::{deeper_is_same, places_are_shifted};
pub use regions::{region_is_local, regions_are_solved};
pub use roots::{
    left_whole_is_same, parted_outputs_are_unjoined, whole_stands_for_cell,
    whole_stands_for_unjoined_outputs,
};
pub use solutions::one_state_says_all;
