//! The functions over all phases.

ghost use Rattle.std.specs.Prelude.{◌≡◌, ◌≤◌, ℕ, IfOk, length, replicate};
ghost use Rattle.output_functions.specs.Phases.{ArePhasePlans, FunctionsGive, HasOwnOutputs};
ghost use Rattle.phase_open.specs.Given.{AreFew};
ghost use Rattle.phase_terms.specs.Ready.{IsReady, comparison_in};
ghost use Rattle.phase_terms.specs.Stores.{counts_of};
ghost use Rattle.rule_index.specs.Tables.{AreRuleTables};
ghost use Rattle.vrt_model.specs.Equal.{IsEqual};
ghost use Rattle.vrt_model.specs.Held.{sources_of};
ghost use Rattle.whole_steps.specs.Tables.{IsWholeTable};

use crate::phase::Stop;
use crate::phases::{Phases, join_phases};
use bdd_core::{H, Store, ZERO};
use phase_open::{take_words, word_count};
use phase_terms::{Comparison, PhasePlan, PhaseWords, WordCounts};
use rule_index::RuleIndex;
use std::alloc::Global;
use vrt_model::{NoMemory, Vars};

/// The functions of a cell's outputs over all its phases.
#[derive(Drop)]
pub struct Functions {
    /// The store in which they stand.
    pub store: Store,
    /// For each signal of the model a handle, by its number: for that of an output port its function, and the constant 0 for others.
    pub handles: Vec<H>,
}

/// The constant 0 for each of so many signals.
fn no_functions(alloc: Global, signals: usize) -> Result<Vec<H>, NoMemory>
    ensures { IfOk result (λ handles. handles.items ≡ replicate signals (record { 0 = 0 })) }
{
    match vec![in alloc; ZERO; signals] {
        Ok(handles) => Ok(handles),
        Err(_) => Err(NoMemory),
    }
}

/// The phases of a cell, by what is made of them before.
fn phases_of<'a>(
    compared: Comparison<'a>,
    vars: &'a Vars,
    plans: &'a [PhasePlan],
    words: PhaseWords,
) -> Phases<'a>
    ensures compared { result.compared ≡ compared.entry }
    ensures vars { result.vars.now ≡ vars.entry.now }
    ensures plans { result.plans.now ≡ plans.entry.now }
    ensures words { result.words ≡ words }
{
    Phases {
        compared,
        vars,
        plans,
        words,
    }
}

/// The functions of a cell's outputs over all its phases, in one store of as many variables as the cell has: that of an output is 1 at exactly those
/// valuations that meet the constraints of some phase that observes it and at which the solution there gives it 1.
///
/// `Spent` comes only with more than four variables, where the operations of all phases may add more nodes than the budget has.
pub fn output_functions(
    alloc: Global,
    budget: u32,
    index: &RuleIndex,
    compared: Comparison<'_>,
    vars: &Vars,
    plans: &[PhasePlan],
    counts: WordCounts,
) -> Result<Functions, Stop>
    requires budget { (65536 ≤ budget) × (budget ≤ 64000000) }
    requires tables { AreRuleTables compared.rules.now index.now }
    requires few { length compared.rules.now.phases ≤ 16 }
    requires ready { IsReady (comparison_in compared) }
    requires wholes { IsWholeTable compared.circuit.now compared.wholes.drivers.now compared.wholes.plans.now }
    requires equal { IsEqual (comparison_in compared) }
    requires own { HasOwnOutputs (comparison_in compared) }
    requires vars { (phase : ℕ) → vars.now.sources ≡ sources_of (comparison_in compared) phase }
    requires plans { ArePhasePlans (comparison_in compared) plans.now }
    requires counts { counts ≡ counts_of (comparison_in compared) counts.variables }
    requires variables { counts.variables ≡ length vars.now.sources }
    requires words { AreFew counts }
    ensures { FunctionsGive (comparison_in compared.entry) plans.entry.now budget counts.variables result }
{
    let Ok(mut store) = Store::with_budget(alloc, budget, word_count(counts), counts.variables)
    else {
        return Err(Stop::NoMemory);
    };
    let words = take_words(&mut store, counts);
    let Ok(mut handles) = no_functions(alloc, compared.model.signals.len()) else {
        return Err(Stop::NoMemory);
    };
    let phases = phases_of(compared, vars, plans, words);
    match join_phases(alloc, index, phases, &mut store, &mut handles) {
        Ok(()) => Ok(Functions { store, handles }),
        Err(stop) => Err(stop),
    }
}
