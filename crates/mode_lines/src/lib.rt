//! The lines of a replay, of classes and of a generated hierarchy, the bits of variables that a list gives, what the nets of a cell show
//! there, and the names that a list gives.
#![tactic(auto)]

mod bits;
mod lists;
mod meeting;
mod name_lists;
mod points;
mod port_nets;
mod replaying;
mod texts;
mod valuations;

pub use lists::{AtItem, ListFault, read_list};
pub use meeting::meets_at;
pub use name_lists::read_names;
pub use points::CellPhase;
pub use replaying::replay_at;
pub use texts::{class_lines, generated_line, replay_lines};
pub use valuations::{AtFault, has_name, no_such_name, twice, valuation_at};
