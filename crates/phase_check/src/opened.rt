//! The first stage of a phase: its words, the bits of its roots, and its care set.

ghost use Rattle.std.specs.Prelude.{◌≡◌, ℕ, ◌+◌, ◌≤◌, ◌<◌, length};
ghost use Rattle.bdd_core.specs.Store.{Adds};
ghost use Rattle.phase_check.specs.States.{KeepsRoom, OpenGives};
ghost use Rattle.phase_open.specs.Given.{AreFew};
ghost use Rattle.phase_terms.specs.Opened.{opened_operations};
ghost use Rattle.phase_terms.specs.Ready.{IsReady, comparison_in};
ghost use Rattle.phase_terms.specs.Stores.{IsUsed, counts_of, word_count};
ghost use Rattle.vrt_model.specs.Held.{sources_of};

use bdd_core::{Spent, Store};
use phase_open::{open_phase, take_words};
use phase_terms::{Comparison, OpenPhase, WordCounts};
use vrt_model::Vars;

/// Opens a phase in words of its own, behind those that are there: the bits of supplies, clock ports and inputs, the held values of holds,
/// the bits of the model's inputs and the old bits of its elements, and the care set, as functions of the variables. The store may have
/// nodes already: they stay, and handles from before keep their functions.
///
/// `Spent` comes only with more than four variables, where these operations and those that were made before may add more nodes than the
/// budget has; then as many nodes are there.
pub fn open_search(
    store: &mut Store,
    compared: Comparison<'_>,
    phase: u32,
    vars: &Vars,
    counts: WordCounts,
) -> Result<OpenPhase, Spent>
    requires ready { IsReady (comparison_in compared) }
    requires phase { phase < length compared.rules.now.phases }
    requires vars { vars.now.sources ≡ sources_of (comparison_in compared) phase }
    requires variables { length (sources_of (comparison_in compared) phase) ≤ store.old.vars }
    requires budget { 65536 ≤ store.old.budget }
    requires counts { counts ≡ counts_of (comparison_in compared) store.old.vars }
    requires few { AreFew counts }
    requires used { (made : ℕ) × IsUsed store.old.budget (length (sources_of (comparison_in compared) phase)) made store.old }
    requires own { store.old.own ≤ length store.old.words }
    requires room { length store.old.words + word_count counts ≤ store.old.word_room }
    ensures gives { (made : ℕ) → IsUsed store.old.budget (length (sources_of (comparison_in compared.entry) phase)) made store.old → OpenGives (comparison_in compared.entry) phase store.old.budget (made + opened_operations (comparison_in compared.entry) phase) store.new result }
    ensures kept { KeepsRoom store.old store.new }
    ensures adds { Adds store.old store.new store.new.words }
{
    store.sound();
    let words = take_words(store, counts);
    match open_phase(store, compared, phase, vars, words) {
        Ok(care) => Ok(OpenPhase { care, words }),
        Err(spent) => Err(spent),
    }
}
