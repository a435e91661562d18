//! Each supported cell has a well-formed comparison: its flat circuit and its flat model are well formed, and its ports and the
//! signals of its model pair. A law alone, the contract of a function that does nothing.
#![tactic(auto)]

mod formed;

pub use formed::supported_cells_are_formed;
