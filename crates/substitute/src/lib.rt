//! Which instances of a cell are left whole: by marks at their places, one instance after the other.
#![tactic(auto)]

mod bare_parts;
mod candidate;
mod checked;
mod checked_circuit;
mod choice;
mod clocked;
mod cycles;
mod laws;
mod range;
mod tables;
mod taken;
mod trial;
mod with_tables;

pub use checked::whole;
pub use checked_circuit::CheckedCircuit;
pub use laws::{
    acyclic_is_chosen, front_is_all, marked_is_with_one, one_more_brings_its_own,
    one_more_is_decided, open_are_allowed, others_are_left_out, outputs_stand_apart, taken_grow,
};
pub use with_tables::whole_with;
