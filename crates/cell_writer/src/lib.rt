//! A cell without state written as a BLIF model: why it is not written, in the order of the tests, the names that are, and the text of its functions.
#![tactic(auto)]

mod causes;
mod cells;
mod counts;
mod laws;
mod name_lists;
mod planned;
mod refusal;
mod refuse;
mod tested;
mod texts;
mod write;
mod writing;

pub use causes::{clock_port, held_net};
pub use cells::{write_model, write_model_with};
pub use laws::written_cells_stand;
pub use refusal::WriteRefusal;
pub use writing::Writing;
