//! Laws of the checked circuit of a cell, in which the models of checked cells stand for some instances: it is made of what is known
//! of the cells below, and may be looked through as the flat circuit is; and what is told of the cell after that is true.
#![tactic(auto)]

mod circuits;
mod given;
mod outputs;
mod told;
mod verdicts;

pub use circuits::{checked_circuits_are_formed, checked_circuits_share};
pub use given::{checked_cells_are_by_facts, nothing_is_whole};
pub use outputs::{
    checked_circuits_are_acyclic, checked_circuits_are_wired, checked_models_are_acyclic,
    checked_outputs_are_allowed, checked_wholes_are_determined, checked_wholes_are_logic,
};
pub use told::{told_drives_are_true, told_facts_are_true};
pub use verdicts::{checked_variables_are_same, flat_verdicts_hold, found_verdicts_hold};
