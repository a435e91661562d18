//! What the nets of a phase ought to have.

ghost use Rattle.std.specs.Prelude.{◌≡◌, ℕ, ◌+◌, ◌≤◌};
ghost use Rattle.phase_check.specs.States.{ChecksWishes, IsEvaluated, IsSearchable, KeepsRoom, handles_of};
ghost use Rattle.phase_terms.specs.Ready.{comparison_in};

use crate::search::Search;
use bdd_core::{Spent, Store};
use node_pool::Span;
use phase_terms::{PhaseFault, PhaseWords};
use phase_wishes::{WishBits, wish_fault};

/// The handles of the nets, of the signals, and of the new bits of the latch elements, which stand behind the signals.
fn wish_bits(words: PhaseWords) -> WishBits
    requires signals { 1 ≤ words.inputs.len }
    requires behind { words.values.start + words.values.len ≤ words.least.start }
    requires elements { words.values.len + 1 ≡ words.inputs.len + words.held.len }
    ensures { result ≡ handles_of words }
{
    let signals = words.inputs.len - 1;
    let values = Span {
        start: words.values.start,
        len: signals,
    };
    let next = Span {
        start: words.values.start + signals,
        len: words.held.len,
    };
    WishBits {
        gates: words.gates,
        values,
        next,
    }
}

/// Looks for a net that has not what it ought to, in a phase whose circuit is solved and whose model is evaluated: the first such fault; or
/// none, and then the phase is equal.
///
/// `Spent` comes only with more than four variables, where the operations so far and those of the wishes may add more nodes than the
/// budget has; then as many nodes are there.
pub fn check_wishes(store: &mut Store, search: Search<'_>) -> Result<Option<PhaseFault>, Spent>
    requires search { IsSearchable (comparison_in search.compared) search.phase search.plan.now }
    requires budget { 65536 ≤ store.old.budget }
    requires evaluated { (made : ℕ) × IsEvaluated (comparison_in search.compared) search.phase store.old.budget made search.plan.now search.care search.words store.old }
    ensures gives { (made : ℕ) → ChecksWishes search.entry made store.old store.new result }
    ensures kept { KeepsRoom store.old store.new }
{
    store.sound();
    let bits = wish_bits(search.words);
    match wish_fault(store, search.plan.wishes.as_slice(), search.care, bits) {
        Err(spent) => Err(spent),
        Ok(None) => Ok(None),
        Ok(Some(fault)) => Ok(Some(PhaseFault {
            kind: fault.wish.kind,
            place: fault.wish.place,
            at: fault.at,
            values: Some((fault.circuit, fault.wanted)),
            least: search.words.least,
        })),
    }
}
