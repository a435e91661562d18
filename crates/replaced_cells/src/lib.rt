//! A circuit with a cell in it, and the circuit in which this instance is whole too: the model of an equal cell stands for the cell.
//! Where nothing is wrong in the one circuit nothing is wrong in the other, and both have the same bits at the nets that remain. Exposed
//! outputs of the instance may meet channels, all others meet gates alone. Laws alone, each the contract of a function that does nothing.
#![tactic(auto)]

mod agreement;
mod bits;
mod chain;
mod faults;
mod levels;

pub use agreement::{
    agreement_goes_down, agreement_goes_up_by_faults, agreement_is_transitive,
    one_more_whole_agrees_by_faults,
};
pub use bits::bits_go_down;
pub use chain::chain_keeps_valuations;
pub use faults::{
    faults_are_shared, faults_stand_below, observed_bits_show_faults, printed_values_are_same,
};
pub use levels::{levels_come_from_cells, levels_go_down};
