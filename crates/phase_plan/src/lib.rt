//! The plan of a phase: the parts of a cell's circuit, the order of its model, and what is wanted of its nets.
#![tactic(auto)]

mod carried;
mod circuits;
mod fault;
mod model_order;
mod plan;
mod wishes;

pub use fault::PlanFault;
pub use plan::{plan_by_parts, plan_phase};
