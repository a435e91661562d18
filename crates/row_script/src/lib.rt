//! For programs that tell what is answered of rows: texts that the lines of standard input give, and a page for the answers.
#![tactic(auto)]

mod marks;
mod page;
mod script;

pub use page::{Page, number, shown};
pub use script::{Part, Script, word_and_rest};
