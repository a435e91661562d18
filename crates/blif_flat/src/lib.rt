//! BLIF models with their sub-models unrolled. What is asked of models before is handed on: which can be unrolled.
#![tactic(auto)]

mod counts;
mod faults;
mod flat;
mod limits;
mod network;
mod places;
mod tables;
mod unroll;

pub use blif_checks::{
    ModelFault, Tables, are_shallow, check_drivers, check_models, check_nesting, check_subs,
    tables_of,
};
pub use faults::FlatModelFault;
pub use flat::{flat_model, flat_model_with};
pub use tables::{ModelTables, model_tables};
