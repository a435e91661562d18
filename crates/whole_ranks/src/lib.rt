//! Laws of circuits with whole instances, in which the models of checked cells stand for the cells: which nets are known,
//! when nets have ranks, that there is one solution, and what each output of a whole instance depends on. Laws alone, each the
//! contract of a function that does nothing.
#![tactic(auto)]

mod defined;
mod idle;
mod known;
mod logic;
mod ranks;
mod solved;
mod whole_cells;

pub use defined::{settled_nets_respond, solutions_are_defined};
pub use idle::idle_inputs_change_nothing;
pub use known::{known_nets_are_solved, known_nets_show, known_nets_stand, no_arcs_to_known_nets};
pub use logic::{logic_has_assignments, signals_follow_covers};
pub use ranks::{acyclic_nets_have_ranks, parts_have_one_rank, ranked_nets_are_acyclic};
pub use solved::{
    acyclic_nets_have_one_solution, ranked_nets_have_drives, ranked_nets_have_one_solution,
};
pub use whole_cells::{whole_cells_are_determined, whole_places_stand_for_cells};
