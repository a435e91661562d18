//! What rules and `.model` cards say, looked up by names in tables that are made once for a netlist and its rules.
#![tactic(auto)]

mod by_cell;
mod cells;
mod index;
mod lines;
mod lower_names;
mod models;
mod of_cell;
mod supplies;

pub use by_cell::ByCell;
pub use index::{RuleIndex, index_of};
pub use lines::{ChargeLines, DeviceLines, PortLines, RuleLines};
pub use lower_names::lowered_name;
pub use models::{Declared, ModelTable};
pub use name_tables::FirstValues;
pub use of_cell::OfCell;
pub use supplies::{note_supplies, supply};
