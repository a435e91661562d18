//! A phase: opened, its bare circuit solved, and its outputs joined to those of the phases before.

ghost use Rattle.std.specs.Prelude.{◌≡◌, ◌+◌, ◌*◌, ◌<◌, ◌≤◌, ℕ, length};
ghost use Rattle.bdd_core.specs.Store.{Adds};
ghost use Rattle.output_functions.specs.Phases.{AreJoined, HasOwnOutputs, HasSameSources, IsBetween, JoinedGives, OpenedGives, SolvedGives, solved_operations};
ghost use Rattle.phase_check.specs.States.{IsSearchable};
ghost use Rattle.phase_terms.specs.Opened.{opened_operations};
ghost use Rattle.phase_terms.specs.Ready.{IsReady, comparison_in};
ghost use Rattle.phase_wishes.specs.Wishes.{AreOutputWishes};
ghost use Rattle.vrt_model.specs.Equal.{IsEqual};
ghost use Rattle.vrt_model.specs.Held.{sources_of};
ghost use Rattle.whole_steps.specs.Tables.{IsWholeTable};

use bdd_core::{H, Spent, Store};
use output_joins::join_outputs;
use phase_check::{Search, solve_bare};
use phase_open::open_phase;
use phase_terms::{Comparison, PhasePlan, PhaseWords};
use phase_wishes::Wish;
use vrt_model::Vars;

/// Why the functions are not joined.
#[derive(Clone, Copy)]
pub enum Stop {
    /// The budget of nodes is used up.
    Spent,
    /// Memory could not be had.
    NoMemory,
}

/// A phase to be joined: the comparison, the phase by its number, its variables and plan, and the words in which it is opened.
#[derive(Clone, Copy)]
pub struct Opening<'a> {
    /// What is compared.
    pub compared: Comparison<'a>,
    /// The phase.
    pub phase: u32,
    /// Its variables.
    pub vars: &'a Vars,
    /// Its plan.
    pub plan: &'a PhasePlan,
    /// The words.
    pub words: PhaseWords,
}

/// Opens a phase in words that are there: the valuations that meet its constraints.
fn opened(store: &mut Store, opening: Opening<'_>) -> Result<H, Spent>
    requires ready { IsReady (comparison_in opening.compared) }
    requires phase { opening.phase < length opening.compared.rules.now.phases }
    requires vars { opening.vars.now.sources ≡ sources_of (comparison_in opening.compared) opening.phase }
    requires budget { 65536 ≤ store.old.budget }
    requires between { (made : ℕ) × IsBetween (comparison_in opening.compared) opening.phase store.old.budget made opening.words store.old }
    ensures gives { (made : ℕ) → IsBetween (comparison_in opening.entry.compared) opening.entry.phase store.old.budget made opening.entry.words store.old → OpenedGives (comparison_in opening.entry.compared) opening.entry.phase store.old.budget (made + opened_operations (comparison_in opening.entry.compared) opening.entry.phase) opening.entry.words store.new result }
    ensures adds { Adds store.old store.new store.new.words }
{
    store.sound();
    open_phase(
        store,
        opening.compared,
        opening.phase,
        opening.vars,
        opening.words,
    )
}

/// Opens a phase and solves its bare circuit: the valuations that meet its constraints. There are some, and no fault stands, where the cell is equal.
fn solved(store: &mut Store, opening: Opening<'_>) -> Result<H, Stop>
    requires search { IsSearchable (comparison_in opening.compared) opening.phase opening.plan.now }
    requires vars { opening.vars.now.sources ≡ sources_of (comparison_in opening.compared) opening.phase }
    requires wholes { IsWholeTable opening.compared.circuit.now opening.compared.wholes.drivers.now opening.compared.wholes.plans.now }
    requires budget { 65536 ≤ store.old.budget }
    requires between { (made : ℕ) × IsBetween (comparison_in opening.compared) opening.phase store.old.budget made opening.words store.old }
    ensures gives { (made : ℕ) → IsBetween (comparison_in opening.entry.compared) opening.entry.phase store.old.budget made opening.entry.words store.old → SolvedGives (comparison_in opening.entry.compared) opening.entry.phase store.old.budget opening.entry.plan.now (made + solved_operations (comparison_in opening.entry.compared) opening.entry.phase opening.entry.plan.now) opening.entry.words store.new result }
    ensures adds { Adds store.old store.new store.new.words }
{
    store.sound();
    let care = match opened(store, opening) {
        Ok(care) => care,
        Err(_) => return Err(Stop::Spent),
    };
    // some valuation meets the constraints of each phase of an equal cell
    if care.0 == 0 {
        return Err(Stop::NoMemory);
    }
    let search = Search {
        compared: opening.compared,
        phase: opening.phase,
        plan: opening.plan,
        care,
        words: opening.words,
    };
    match solve_bare(store, search) {
        Ok(None) => Ok(care),
        // no fault stands in an equal cell
        Ok(Some(_)) => Err(Stop::NoMemory),
        Err(_) => Err(Stop::Spent),
    }
}

/// Joins the outputs that are observed in a phase of an equal cell, by the wishes of the phase, to the functions of the phases before it.
///
/// `Spent` comes only with more than four variables, where the operations so far and those of the phase may add more nodes than the budget has.
pub fn join_phase(
    store: &mut Store,
    opening: Opening<'_>,
    wishes: &[Wish],
    functions: &mut Vec<H>,
) -> Result<(), Stop>
    requires search { IsSearchable (comparison_in opening.compared) opening.phase opening.plan.now }
    requires vars { opening.vars.now.sources ≡ sources_of (comparison_in opening.compared) opening.phase }
    requires wholes { IsWholeTable opening.compared.circuit.now opening.compared.wholes.drivers.now opening.compared.wholes.plans.now }
    requires equal { IsEqual (comparison_in opening.compared) }
    requires own { HasOwnOutputs (comparison_in opening.compared) }
    requires same { HasSameSources (comparison_in opening.compared) }
    requires wishes { AreOutputWishes (comparison_in opening.compared) opening.phase wishes.now }
    requires budget { 65536 ≤ store.old.budget }
    requires between { (made : ℕ) × IsBetween (comparison_in opening.compared) opening.phase store.old.budget made opening.words store.old }
    requires joined { AreJoined (comparison_in opening.compared) opening.phase functions.old.items store.old }
    ensures gives { (made : ℕ) → IsBetween (comparison_in opening.entry.compared) opening.entry.phase store.old.budget made opening.entry.words store.old → JoinedGives (comparison_in opening.entry.compared) opening.entry.phase store.old.budget (made + solved_operations (comparison_in opening.entry.compared) opening.entry.phase opening.entry.plan.now + 2 * length wishes.now) opening.entry.words store.new functions.new.items result }
    ensures adds { Adds store.old store.new store.new.words }
{
    store.sound();
    let care = match solved(store, opening) {
        Ok(care) => care,
        Err(stop) => return Err(stop),
    };
    match join_outputs(store, functions, wishes, care, opening.words.gates) {
        Ok(()) => Ok(()),
        Err(_) => Err(Stop::Spent),
    }
}
