//! A phase of a cell looked through in a store that has room for it. No memory is taken.

ghost use Rattle.std.specs.Prelude.{◌≡◌, ◌≤◌, ℕ, None, length};
ghost use Rattle.cell_compare.specs.Looked.{IsLast, IsLook};
ghost use Rattle.cell_room.specs.Works.{HasRoom};
ghost use Rattle.drive_levels.specs.PhaseLevels.{HasTables, KeepsTables};
ghost use Rattle.drive_levels.specs.declared.table.NetLevels.{NetLevels as LevelsValue};
ghost use Rattle.phase_check.specs.States.{IsWished, KeepsRoom};
ghost use Rattle.phase_laws.specs.Sums.{search_operations};
ghost use Rattle.phase_terms.specs.Found.{IsPhaseFault};
ghost use Rattle.phase_terms.specs.Ready.{comparison_in};
ghost use Rattle.vrt_model.specs.Held.{sources_of};

use crate::answers::PhaseVerdict;
use bdd_core::Store;
use drive_levels::NetLevels;
use node_pool::Mark;
use phase_check::{Search, check_phase, write_levels};
use phase_terms::{Comparison, OpenPhase, PhaseFault, PhaseFound, PhasePlan, WordCounts};
use phase_told::{FoundFault, find_site};
use vrt_model::Vars;

/// A phase that is to be looked through.
#[derive(Clone, Copy)]
pub(crate) struct Look<'a> {
    /// What is compared.
    pub(crate) compared: Comparison<'a>,
    /// The phase, by its number.
    pub(crate) phase: u32,
    /// How many nodes the store may have.
    pub(crate) budget: u32,
    /// Its variables.
    pub(crate) vars: &'a Vars,
    /// Its plan.
    pub(crate) plan: &'a PhasePlan,
    /// How many words it takes, by kind.
    pub(crate) counts: WordCounts,
    /// How the store was opened.
    pub(crate) start: Mark,
}

/// The phase that was last looked through.
#[derive(Clone, Copy)]
pub(crate) struct Last {
    /// The phase, by its number.
    pub(crate) phase: u32,
    /// How many variables it has.
    pub(crate) variables: u32,
    /// What was found.
    pub(crate) answer: PhaseVerdict,
    /// The fault by handles of the store, where one was found.
    pub(crate) fault: Option<PhaseFault>,
}

/// An answer for a phase that is no fault.
fn without_fault(look: Look<'_>, answer: PhaseVerdict) -> Last
    requires { IsLook look }
    ensures { result ≡ record { phase = look.entry.phase; variables = length look.entry.vars.now.sources; answer = answer; fault = None } }
{
    Last {
        phase: look.phase,
        variables: look.vars.sources.len() as u32,
        answer,
        fault: None,
    }
}

/// What is found in a phase that is equal, once the levels of the nets that are asked for are written: clear, or a budget that is used up by
/// them.
fn found_levels(
    store: &mut Store,
    look: Look<'_>,
    opened: OpenPhase,
    levels: &mut NetLevels,
) -> Last
    requires look { IsLook look }
    requires budget { store.old.budget ≡ look.budget }
    requires wished { IsWished (comparison_in look.compared) look.phase store.old.budget (search_operations (comparison_in look.compared) look.phase look.plan.now) look.plan.now opened.care opened.words store.old }
    requires levels { HasTables (length look.compared.circuit.now.nets) levels.old }
    ensures last { IsLast (comparison_in look.entry.compared) look.entry.budget look.entry.phase levels.new store.new result }
    ensures tables { KeepsTables levels.old levels.new }
    ensures kept { KeepsRoom store.old store.new }
{
    let search = Search {
        compared: look.compared,
        phase: look.phase,
        plan: look.plan,
        care: opened.care,
        words: opened.words,
    };
    match write_levels(store, search, levels) {
        Ok(()) => without_fault(look, PhaseVerdict::Clear),
        Err(_) => without_fault(look, PhaseVerdict::Budget { nodes: look.budget }),
    }
}

/// The first fault of a phase with its site; the least valuation at which it stands is written into its words.
fn found_fault(store: &mut Store, look: Look<'_>, fault: PhaseFault) -> Last
    requires look { IsLook look }
    requires few { length (sources_of (comparison_in look.compared) look.phase) ≤ store.old.vars }
    requires nodes { 2 ≤ length store.old.nodes }
    requires fault { IsPhaseFault (comparison_in look.compared) look.phase fault store.old }
    ensures last { (budget : ℕ) (levels : LevelsValue) → IsLast (comparison_in look.entry.compared) budget look.entry.phase levels store.new result }
    ensures kept { KeepsRoom store.old store.new }
{
    let found = FoundFault {
        compared: look.compared,
        phase: look.phase,
        fault,
    };
    let site = find_site(store, found);
    Last {
        phase: look.phase,
        variables: look.vars.sources.len() as u32,
        answer: PhaseVerdict::Fault(site),
        fault: Some(fault),
    }
}

/// Looks through a phase in a store that is cut back to its start: clear, and then the levels of the nets that are asked for are written; or its
/// first fault; or no valuation meets its constraints; or the budget is used up.
pub(crate) fn look_through(store: &mut Store, look: Look<'_>, levels: &mut NetLevels) -> Last
    requires look { IsLook look }
    requires room { HasRoom (comparison_in look.compared) look.budget look.counts.variables look.start.words store.old }
    requires levels { HasTables (length look.compared.circuit.now.nets) levels.old }
    ensures last { IsLast (comparison_in look.entry.compared) look.entry.budget look.entry.phase levels.new store.new result }
    ensures tables { KeepsTables levels.old levels.new }
    ensures room { HasRoom (comparison_in look.entry.compared) look.entry.budget look.entry.counts.variables look.entry.start.words store.new }
{
    store.leave(look.start);
    match check_phase(
        store,
        look.compared,
        look.phase,
        look.vars,
        look.plan,
        look.counts,
    ) {
        PhaseFound::Clear(opened) => found_levels(store, look, opened, levels),
        PhaseFound::Vacuous => without_fault(look, PhaseVerdict::Vacuous),
        PhaseFound::Fault(fault) => found_fault(store, look, fault),
        PhaseFound::Spent => without_fault(look, PhaseVerdict::Budget { nodes: look.budget }),
    }
}
