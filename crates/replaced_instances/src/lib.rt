//! Laws of one further instance of a circuit that is left whole: it stood in the circuit before, and what is left is that circuit
//! without its inside. Its outputs then meet gates alone, or are exposed to channels and to other outputs by the drives that are told of
//! them. Laws alone, each the contract of a function that does nothing.
#![tactic(auto)]

mod chosen;
mod exposed;
mod steps;

pub use chosen::{
    chosen_ports_are_placed, chosen_step_hides_its_nets, chosen_step_is_left_whole,
    chosen_step_is_placed,
};
pub use exposed::{
    exposed_drives_are_true, exposed_outputs_are_apart, exposed_outputs_have_drives,
};
pub use steps::step_has_left_instances;
