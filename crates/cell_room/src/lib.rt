//! A cell before its phases are looked through: what stands in the way of comparing it with its model, or all that is made of it for
//! that, and the room that its phases take.
#![tactic(auto)]

mod checked;
mod comparison;
mod flattened;
mod flattening;
mod hindrance;
mod lone;
mod made;
mod planned;
mod room;
mod sizes;
mod works;

pub use flattened::Flattened;
pub use made::{Made, make};
pub use planned::{NotPlanned, Planned, plan_cell};
pub use room::{Room, room_for};
