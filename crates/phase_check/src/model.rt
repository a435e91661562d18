//! The model of a phase.

ghost use Rattle.std.specs.Prelude.{ℕ, ◌≤◌};
ghost use Rattle.phase_check.specs.States.{Evaluates, IsSearchable, IsSolvedKept, KeepsRoom};
ghost use Rattle.phase_terms.specs.Ready.{comparison_in};

use crate::search::Search;
use bdd_core::{Spent, Store};
use blif_eval::eval_model;

/// Evaluates the model of a phase whose circuit is solved: its signals and elements have their bits then.
///
/// `Spent` comes only with more than four variables, where the operations so far and those of the model may add more nodes than the
/// budget has; then as many nodes are there.
pub fn evaluate(store: &mut Store, search: Search<'_>) -> Result<(), Spent>
    requires search { IsSearchable (comparison_in search.compared) search.phase search.plan.now }
    requires budget { 65536 ≤ store.old.budget }
    requires solved { (made : ℕ) × IsSolvedKept (comparison_in search.compared) search.phase store.old.budget made search.plan.now search.care search.words store.old }
    ensures gives { (made : ℕ) → Evaluates search.entry made store.old store.new result }
    ensures kept { KeepsRoom store.old store.new }
{
    store.sound();
    let words = search.words;
    eval_model(
        store,
        search.compared.model,
        &search.plan.model,
        words.inputs,
        words.held,
        words.values,
    )
}
