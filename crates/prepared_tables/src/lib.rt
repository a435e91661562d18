//! What three files say, looked up in tables that are made once for all cells.
#![tactic(auto)]

mod by_name;
mod pairs;
mod prepared;

pub use by_name::{ModelNames, model_names};
pub use pairs::{is_skipped_with, model_of_with};
pub use prepared::{Prepared, prepare};
