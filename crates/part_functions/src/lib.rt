//! A part that reads few functions, solved over variables that stand for these: what is found is composed of them where it is
//! wanted.
#![tactic(auto)]

mod compose;
mod few;
mod order;
mod replaced;
mod solve;
mod suits;

pub use compose::composed;
pub use few::PartFunctions;
pub use solve::solve_small;
pub use suits::few_functions;
