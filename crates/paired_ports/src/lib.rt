//! Laws of the ports of a cell and the signals of a model of which none is in the way of pairing them. Laws alone, each the
//! contract of a function that does nothing.
#![tactic(auto)]

mod pairable;

pub use pairable::{inputs_are_given, ports_have_roles, ports_pair_apart};
