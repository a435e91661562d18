//! Which BLIF models can be unrolled: each sub-model is there and is tied as its interface asks, none contains itself or
//! is too deep, and each signal that is used has one driver.
#![tactic(auto)]

mod check;
mod drivers;
mod faults;
mod inner;
mod judge;
mod mentions;
mod nested;
mod notes;
mod part;
mod roles;
mod signals;
mod subs;
mod tables;
mod ties;
mod uses;

pub use check::check_models;
pub use faults::ModelFault;
pub use inner::number_of;
pub use judge::check_drivers;
pub use nested::{are_shallow, check_nesting};
pub use signals::{cover_names, signals_of};
pub use subs::check_subs;
pub use tables::{Tables, tables_of};
