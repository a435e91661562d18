//! Expressions over the ports of a cell, the constraints of an instance, and the care set of a phase, as functions of the
//! variables of a store.
#![tactic(auto)]

mod assumptions;
mod bits;
mod care_set;
mod cells;
mod expression;
mod given_ports;
mod instances;
mod named;
mod ports;

pub use care_set::care;
pub use expression::expr;
pub use instances::obligation;
pub use named::{is_constrained, named_rank};
