//! Instances of a cell that are tried together: whether the arcs of its circuit have a cycle is asked once, with all of them whole. Laws
//! alone, each the contract of a function that does nothing.
#![tactic(auto)]

mod trials;

pub use trials::{
    any_allowed_are_chosen, any_step_keeps_acyclic, any_trials_are_acyclic, any_tried_may_be_whole,
    carried_clocks_are_known,
};
