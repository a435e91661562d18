//! The search of a phase for its first fault: stage after stage.

ghost use Rattle.std.specs.Prelude.{◌≡◌, ◌≢◌, ℕ, ◌+◌, ◌≤◌, length};
ghost use Rattle.phase_check.specs.States.{ChecksStages, ClearGives, IsOpened, IsSearchable, KeepsRoom};
ghost use Rattle.phase_laws.specs.Sums.{search_operations};
ghost use Rattle.phase_open.specs.Given.{AreFew};
ghost use Rattle.phase_terms.specs.Found.{PhaseGives};
ghost use Rattle.phase_terms.specs.Ready.{comparison_in};
ghost use Rattle.phase_terms.specs.Stores.{counts_of, word_count};
ghost use Rattle.vrt_model.specs.Held.{sources_of};
ghost use Rattle.whole_steps.specs.Tables.{IsWholeTable};

use crate::bare::solve_bare;
use crate::kept::solve_kept;
use crate::model::evaluate;
use crate::opened::open_search;
use crate::wishes::check_wishes;
use bdd_core::{H, Spent, Store};
use phase_terms::{Comparison, PhaseFault, PhaseFound, PhasePlan, PhaseWords, WordCounts};
use vrt_model::Vars;

/// A phase that is searched: the comparison, the plan of the phase, the valuations that meet its constraints, and its words.
#[derive(Clone, Copy)]
pub struct Search<'a> {
    /// What is compared.
    pub compared: Comparison<'a>,
    /// The phase, by its number.
    pub phase: u32,
    /// The order in which it is worked through.
    pub plan: &'a PhasePlan,
    /// The valuations that meet its constraints.
    pub care: H,
    /// Its words in the store.
    pub words: PhaseWords,
}

/// The first fault of an opened phase whose constraints some valuation meets: of the bare circuit, of the kept one, and of what nets ought
/// to have, in this order.
fn check_stages(store: &mut Store, search: Search<'_>) -> Result<Option<PhaseFault>, Spent>
    requires search { IsSearchable (comparison_in search.compared) search.phase search.plan.now }
    requires wholes { IsWholeTable search.compared.circuit.now search.compared.wholes.drivers.now search.compared.wholes.plans.now }
    requires budget { 65536 ≤ store.old.budget }
    requires opened { (made : ℕ) × IsOpened (comparison_in search.compared) search.phase store.old.budget made search.care search.words store.old }
    requires some { search.care.0 ≢ 0 }
    ensures gives { (made : ℕ) → ChecksStages search.entry made store.old store.new result }
    ensures kept { KeepsRoom store.old store.new }
{
    match solve_bare(store, search) {
        Ok(None) => {}
        Ok(Some(fault)) => return Ok(Some(fault)),
        Err(spent) => return Err(spent),
    }
    match solve_kept(store, search) {
        Ok(None) => {}
        Ok(Some(fault)) => return Ok(Some(fault)),
        Err(spent) => return Err(spent),
    }
    match evaluate(store, search) {
        Ok(()) => {}
        Err(spent) => return Err(spent),
    }
    check_wishes(store, search)
}

/// Compares a circuit with its model in a phase, at every valuation at once: opens the phase in a store without nodes, and then
/// looks for a fault of the bare circuit, of the kept circuit, and of what nets ought to have, in this order.
///
/// `Clear` comes where the two agree at each valuation that meets the constraints, with what `write_levels` asks for, and `Vacuous` where
/// no valuation meets them. A fault is the first of the phase at the least valuation at which its function is 1. `Spent` comes only with
/// more than four variables, where the operations of the phase may add more nodes than the budget has; then as many nodes are there. No
/// memory is taken, and no word from before is written.
pub fn check_phase(
    store: &mut Store,
    compared: Comparison<'_>,
    phase: u32,
    vars: &Vars,
    plan: &PhasePlan,
    counts: WordCounts,
) -> PhaseFound
    requires search { IsSearchable (comparison_in compared) phase plan.now }
    requires vars { vars.now.sources ≡ sources_of (comparison_in compared) phase }
    requires variables { length (sources_of (comparison_in compared) phase) ≤ store.old.vars }
    requires wholes { IsWholeTable compared.circuit.now compared.wholes.drivers.now compared.wholes.plans.now }
    requires budget { 65536 ≤ store.old.budget }
    requires counts { counts ≡ counts_of (comparison_in compared) store.old.vars }
    requires few { AreFew counts }
    requires empty { length store.old.nodes ≡ 2 }
    requires own { store.old.own ≤ length store.old.words }
    requires room { length store.old.words + word_count counts ≤ store.old.word_room }
    ensures gives { PhaseGives (comparison_in compared.entry) phase store.old.budget (search_operations (comparison_in compared.entry) phase plan.entry.now) store.new result }
    ensures clear { ClearGives (comparison_in compared.entry) phase (search_operations (comparison_in compared.entry) phase plan.entry.now) plan.entry.now store.new result }
    ensures kept { KeepsRoom store.old store.new }
{
    store.sound();
    let opened = match open_search(store, compared, phase, vars, counts) {
        Ok(opened) => opened,
        Err(_) => return PhaseFound::Spent,
    };
    if opened.care.0 == 0 {
        return PhaseFound::Vacuous;
    }
    let search = Search {
        compared,
        phase,
        plan,
        care: opened.care,
        words: opened.words,
    };
    match check_stages(store, search) {
        Ok(None) => PhaseFound::Clear(opened),
        Ok(Some(fault)) => PhaseFound::Fault(fault),
        Err(_) => PhaseFound::Spent,
    }
}
