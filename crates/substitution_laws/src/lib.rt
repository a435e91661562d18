//! A checked cell's model stands for it in the cells above, where outputs of instances that are left whole meet gates alone, or meet channels
//! by the drives that the facts tell of them. Laws alone, each the contract of a function that does nothing.
#![tactic(auto)]

mod agreement;
mod chosen;
mod downs;
mod ends;
mod firm;
mod first;
mod later;
mod pins;
mod steps;
mod substitution;
mod verdicts;
mod wholes;

pub use agreement::{chain_is_always_solved, checked_circuits_agree};
pub use chosen::{chosen_cells_are_logic, chosen_instances_are_steps};
pub use downs::steps_go_down;
pub use ends::chosen_ends_are_shown;
pub use firm::firm_ground_reaches_flat;
pub use first::{chain_circuits_are_ordered, first_faults_stand_below};
pub use later::later_faults_stand_below;
pub use pins::{step_has_cell_pins, step_has_one_more_whole};
pub use steps::steps_are_one_more_whole;
pub use substitution::substitution_holds;
pub use verdicts::{chain_has_no_more_work, chain_needs_no_more, checked_verdicts_hold};
pub use wholes::{
    circuits_have_ranges, cuts_have_ranges, trials_are_wired, wholes_are_determined,
    wholes_stand_for_cells,
};
