//! Solutions of circuits in which whole instances may stand: which nets their ranks settle, where a solution has bits, which
//! valuation of its cell an instance has, what is known inside, and which nets are observed. Laws alone, each the contract of a
//! function that does nothing.
#![tactic(auto)]

mod instances;
mod known_inside;
mod observed;
mod ranked;

pub use instances::{instance_gives_valuation, paired_ports_are_given};
pub use known_inside::{
    known_inside_is_assured, known_inside_is_solved, known_inside_shows,
    unknown_outputs_are_unsettled,
};
pub use observed::{observed_nets_are_there, whole_observes_no_more};
pub use ranked::{ranked_solutions_have_bits, ranks_give_regions};
