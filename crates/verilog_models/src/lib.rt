//! The model of a module of gate-level Verilog: its interface, the covers of its expressions, gates and constants, and
//! the sub-models of its instances. A module is made into its model as its statements come, and none is kept.
#![tactic(auto)]

mod draft;
mod functions;
mod gates;
mod instances;
mod interface;
mod made;
mod values;

pub use draft::Draft;
pub use functions::Function;
pub use interface::Given;
pub use made::Made;
