//! The text of a model without state: which names may stand in it, how many signals and bytes it has, and the text itself, from the numbers of
//! the nodes of its outputs' diagrams.
#![tactic(auto)]

mod counts;
mod model;
mod pieces;
mod refused;
mod text;

pub use counts::{signal_count, text_length};
pub use model::{ModelLines, NodeLine};
pub use refused::refused_name;
pub use text::model_text;
