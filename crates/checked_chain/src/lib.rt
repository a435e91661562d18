//! Laws of the circuits between the flat circuit of a cell and its checked one: instance by instance, one more is left whole
//! where it is chosen. Laws alone, each the contract of a function that does nothing.
#![tactic(auto)]

mod arcs;
mod drives;
mod findings;
mod flat;
mod holds;
mod instances;
mod order;
mod steps;

pub use arcs::{arcs_are_of_choice, chain_is_acyclic, circuits_are_acyclic};
pub use drives::drives_stay;
pub use findings::descriptions_move;
pub use flat::flat_circuits;
pub use holds::{
    chain_keeps_holds, constraints_are_same, ends_stay_shown, groups_are_same, settings_are_same,
    variables_are_same,
};
pub use instances::{instances_are_shown, instances_move, instances_stay_apart};
pub use order::{
    chosen_are_apart, nothing_is_left_out_inside, nothing_is_whole_inside, outer_comes_first,
};
pub use steps::{
    chain_begins_flat, chain_ends_checked, chain_is_there, none_more_is_same, one_more_is_next,
    places_alone_count,
};
