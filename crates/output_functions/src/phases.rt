//! Phase after phase.

ghost use Rattle.std.specs.Prelude.{◌≡◌, ◌+◌, ◌<◌, ◌≤◌, ℕ, length};
ghost use Rattle.output_functions.specs.Phases.{AreJoinedIn, IsJoinable, PhasesGive};
ghost use Rattle.phase_terms.specs.Ready.{comparison_in};
ghost use Rattle.rule_index.specs.Tables.{AreRuleTables};
ghost use Rattle.vrt_model.specs.Lists.{At};

use crate::phase::{Opening, Stop, join_phase};
use bdd_core::{H, Store};
use phase_ports::output_wishes;
use phase_terms::{Comparison, PhasePlan, PhaseWords};
use rule_index::RuleIndex;
use std::alloc::Global;
use vrt_model::Vars;

/// The phases of a cell: the comparison, the variables, which are those of each phase, a plan of each, and the words in which they are opened.
#[derive(Clone, Copy)]
pub struct Phases<'a> {
    /// What is compared.
    pub compared: Comparison<'a>,
    /// The variables of each phase.
    pub vars: &'a Vars,
    /// The plan of each phase.
    pub plans: &'a [PhasePlan],
    /// The words of a phase.
    pub words: PhaseWords,
}

/// The plan of a phase.
fn plan_at(plans: &[PhasePlan], phase: u32) -> &PhasePlan
    requires { phase < length plans.now }
    ensures { At plans.entry.now phase result.now }
{
    &plans[phase as usize]
}

/// A phase that is to be joined.
fn opening_of<'a>(phases: Phases<'a>, phase: u32) -> Opening<'a>
    requires { phase < length phases.plans.now }
    ensures compared { result.compared ≡ phases.entry.compared }
    ensures phase { result.phase ≡ phase }
    ensures vars { result.vars.now ≡ phases.entry.vars.now }
    ensures plan { At phases.entry.plans.now phase result.plan.now }
    ensures words { result.words ≡ phases.entry.words }
{
    Opening {
        compared: phases.compared,
        phase,
        vars: phases.vars,
        plan: plan_at(phases.plans, phase),
        words: phases.words,
    }
}

/// Joins the outputs of one phase more.
fn join_next(
    alloc: Global,
    index: &RuleIndex,
    phases: Phases<'_>,
    phase: u32,
    store: &mut Store,
    functions: &mut Vec<H>,
) -> Result<(), Stop>
    requires tables { AreRuleTables phases.compared.rules.now index.now }
    requires phases { IsJoinable phases }
    requires phase { phase < length phases.compared.rules.now.phases }
    requires budget { 65536 ≤ store.old.budget }
    requires joined { AreJoinedIn (comparison_in phases.compared) phases.plans.now phase store.old.budget phases.words store.old functions.old.items }
    ensures gives { PhasesGive (comparison_in phases.entry.compared) phases.entry.plans.now (phase + 1) store.old.budget phases.entry.words store.new functions.new.items result }
    ensures budget { store.new.budget ≡ store.old.budget }
{
    store.sound();
    let compared = phases.compared;
    let Ok(wishes) = output_wishes(
        alloc,
        index,
        compared.design,
        compared.rules,
        compared.cell,
        compared.pairing,
        phase,
        &[],
    ) else {
        return Err(Stop::NoMemory);
    };
    join_phase(
        store,
        opening_of(phases, phase),
        wishes.as_slice(),
        functions,
    )
}

/// Joins the outputs of all phases.
pub(crate) fn join_phases(
    alloc: Global,
    index: &RuleIndex,
    phases: Phases<'_>,
    store: &mut Store,
    functions: &mut Vec<H>,
) -> Result<(), Stop>
    requires tables { AreRuleTables phases.compared.rules.now index.now }
    requires phases { IsJoinable phases }
    requires few { length phases.compared.rules.now.phases ≤ 16 }
    requires budget { 65536 ≤ store.old.budget }
    requires joined { AreJoinedIn (comparison_in phases.compared) phases.plans.now 0 store.old.budget phases.words store.old functions.old.items }
    ensures gives { PhasesGive (comparison_in phases.entry.compared) phases.entry.plans.now (length phases.entry.compared.rules.now.phases) store.old.budget phases.entry.words store.new functions.new.items result }
{
    store.sound();
    for phase in 0..phases.compared.rules.phases.len() as u32 {
        match join_next(alloc, index, phases, phase, store, functions) {
            Ok(()) => {}
            Err(stop) => return Err(stop),
        }
    }
    Ok(())
}
