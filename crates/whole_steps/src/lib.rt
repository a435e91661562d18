//! The outputs of whole instances: the order in which the model of one is worked through, the bit that it gives an output, as a
//! function of the bits of the nets at its inputs, and the step that writes this bit as that of the output's net.
#![tactic(auto)]

mod drivers;
mod free;
mod given;
mod orders;
mod output;
mod plan;
mod step;
mod table;

pub use drivers::output_drivers;
pub use free::free_outputs_show;
pub use orders::model_orders;
pub use plan::whole_plan;
pub use step::write_output;
pub use table::{OutputPlace, WholeTable, driver_of, earlier_of, free_driver};
