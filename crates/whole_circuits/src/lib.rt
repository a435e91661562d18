//! Instances that are left whole, for which the models of their cells stand.
#![tactic(auto)]

mod acyclic;
mod assembly;
mod cell_tests;
mod copies;
mod counts;
mod ends;
mod holds;
mod inside;
mod instance;
mod laws;
mod links;
mod marks;
mod outputs;
mod owners;
mod pins;
mod places;
mod shown;
mod taken;
mod whole_cell;
mod wholes;

pub use acyclic::are_acyclic;
pub use assembly::circuit_with;
pub use cell_tests::{keeps_inputs_free, names_no_global};
pub use copies::copy_items;
pub use counts::{channel_counts, count_channels};
pub use holds::moved_holds;
pub use inside::{add_inside, inside_marks};
pub use laws::{one_by_one, tests_tell};
pub use links::whole_links;
pub use marks::Marks;
pub use outputs::{NetMarks, are_open};
pub use owners::{device_places, devices_before};
pub use pins::{driven_pins, input_pins};
pub use places::place_at;
pub use shown::{shown_devices, shown_instances};
pub use taken::{Taken, joined, no_outputs, taken_at};
pub use whole_cell::WholeCell;
