//! The kept circuit of a phase.

ghost use Rattle.std.specs.Prelude.{◌<◌, ℕ, ◌≤◌};
ghost use Rattle.bdd_core.specs.Store.{IsSpan};
ghost use Rattle.phase_check.specs.States.{AreKeptValues, IsSearchable, IsSolvedBare, KeepsRoom, SolvesKept};
ghost use Rattle.phase_terms.specs.Ready.{comparison_in};
ghost use Rattle.whole_steps.specs.Tables.{IsWholeTable};

use crate::search::Search;
use bdd_core::{H, Spent, Store};
use circuit_faults::{KeptFault, KeptSpans, wired_kept};
use node_pool::Span;
use phase_terms::PhaseFault;
use vrt_model::FaultKind;

/// The values with which a fault of the kept circuit is printed: where a net is unsettled, the bit that the kept circuit shows
/// and that of the bare one.
fn kept_values(store: &Store, gates: Span, fault: KeptFault) -> Option<(H, H)>
    requires gates { IsSpan store.now gates }
    requires net { fault.net.0 < gates.len }
    ensures { AreKeptValues fault gates store.now result }
{
    match fault.kind {
        FaultKind::Unsettled => Some((fault.value, H(store.read(gates, fault.net.0)))),
        _ => None,
    }
}

/// Solves the kept circuit of a phase whose bare circuit is solved: its first fault; or none.
///
/// `Spent` comes only with more than four variables, where the operations so far and those of the kept circuit may add more nodes than
/// the budget has; then as many nodes are there.
pub fn solve_kept(store: &mut Store, search: Search<'_>) -> Result<Option<PhaseFault>, Spent>
    requires search { IsSearchable (comparison_in search.compared) search.phase search.plan.now }
    requires wholes { IsWholeTable search.compared.circuit.now search.compared.wholes.drivers.now search.compared.wholes.plans.now }
    requires budget { 65536 ≤ store.old.budget }
    requires solved { (made : ℕ) × IsSolvedBare (comparison_in search.compared) search.phase store.old.budget made search.plan.now search.care search.words store.old }
    ensures gives { (made : ℕ) → SolvesKept search.entry made store.old store.new result }
    ensures kept { KeepsRoom store.old store.new }
{
    store.sound();
    let words = search.words;
    let marks = search.plan.observed.as_slice();
    let spans = KeptSpans {
        roots: words.roots,
        gates: words.gates,
        zeros: words.zeros,
        ones: words.ones,
        out: words.out,
    };
    match wired_kept(
        store,
        search.compared.circuit,
        search.compared.wholes,
        &search.plan.kept,
        marks,
        search.care,
        spans,
    ) {
        Err(spent) => Err(spent),
        Ok(None) => Ok(None),
        Ok(Some(fault)) => Ok(Some(PhaseFault {
            kind: fault.kind,
            place: fault.net.0,
            at: fault.at,
            values: kept_values(store, words.gates, fault),
            least: words.least,
        })),
    }
}
