//! What can be told of each circuit, in which whole instances may stand: which nets are known in a phase, which are in one part, and
//! along which arcs the ranks of nets rise. A circuit is finite, so each is found by a search. Laws alone, each the contract of a
//! function that does nothing.
#![tactic(auto)]

mod told;

pub use told::{known_nets_have_table, known_nets_have_test, parts_have_test, rank_arcs_have_test};
