//! Faults that stand on firm ground: what they rest on is settled, whatever the rest of the circuit does. Laws alone, each the contract
//! of a function that does nothing.
#![tactic(auto)]

mod ground;
mod step;

pub use ground::{firm_ground_stands, first_fault_is_firm, settled_nets_stand};
pub use step::{firm_ground_goes_down, replaced_instances_step_down};
