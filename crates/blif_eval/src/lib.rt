//! A model evaluated by diagrams: an order of its signals and elements that follows what depends on what, the diagram
//! of a cover from those of its inputs, and the diagrams of all signals and elements.
#![tactic(auto)]

mod choice;
mod cover;
mod driver_table;
mod eval;
mod full_rows;
mod graph;
mod known;
mod learning;
mod off_row;
mod plan;

pub use cover::cover_diagram;
pub use driver_table::{Driver, Storage};
pub use eval::eval_model;
pub use plan::{ModelPlan, PlanFault, model_plan};
