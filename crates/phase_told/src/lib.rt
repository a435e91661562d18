//! The first fault of a phase told: where it stands, by numbers and without memory, at the least valuation with the bits that are there;
//! and then by names.
#![tactic(auto)]

mod bits;
mod fault;
mod places;
mod ports;
mod site;
mod values;

pub use fault::name_fault;
pub use site::{FoundFault, Site, find_site};
