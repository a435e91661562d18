//! The bare circuit of a phase.

ghost use Rattle.std.specs.Prelude.{◌≢◌, ℕ, ◌≤◌};
ghost use Rattle.bdd_core.specs.Store.{Adds};
ghost use Rattle.phase_check.specs.States.{IsOpened, IsSearchable, KeepsRoom, SolvesBare};
ghost use Rattle.phase_terms.specs.Ready.{comparison_in};
ghost use Rattle.whole_steps.specs.Tables.{IsWholeTable};

use crate::search::Search;
use bdd_core::{Spent, Store};
use circuit_faults::{CircuitSpans, PhasedCircuit, wired_fault};
use phase_terms::PhaseFault;

/// Solves the bare circuit of an opened phase whose constraints some valuation meets: its first fault; or none, and then its observed nets
/// have their bits. Handles from before keep their functions.
///
/// `Spent` comes only with more than four variables, where the operations so far and those of the circuit's steps may add more nodes than
/// the budget has; then as many nodes are there.
pub fn solve_bare(store: &mut Store, search: Search<'_>) -> Result<Option<PhaseFault>, Spent>
    requires search { IsSearchable (comparison_in search.compared) search.phase search.plan.now }
    requires wholes { IsWholeTable search.compared.circuit.now search.compared.wholes.drivers.now search.compared.wholes.plans.now }
    requires budget { 65536 ≤ store.old.budget }
    requires opened { (made : ℕ) × IsOpened (comparison_in search.compared) search.phase store.old.budget made search.care search.words store.old }
    requires some { search.care.0 ≢ 0 }
    ensures gives { (made : ℕ) → SolvesBare search.entry made store.old store.new result }
    ensures kept { KeepsRoom store.old store.new }
    ensures adds { Adds store.old store.new store.new.words }
{
    store.sound();
    let words = search.words;
    let steps = search.plan.steps.as_slice();
    let marks = search.plan.observed.as_slice();
    let phased = PhasedCircuit {
        design: search.compared.design,
        rules: search.compared.rules,
        circuit: search.compared.circuit,
        phase: search.phase,
        parts: &search.plan.parts,
        steps,
        observed: marks,
    };
    let spans = CircuitSpans {
        roots: words.roots,
        gates: words.gates,
        out: words.out,
    };
    match wired_fault(store, phased, search.compared.wholes, search.care, spans) {
        Err(spent) => Err(spent),
        Ok(None) => Ok(None),
        Ok(Some(fault)) => Ok(Some(PhaseFault {
            kind: fault.kind,
            place: fault.place,
            at: fault.at,
            values: None,
            least: words.least,
        })),
    }
}
