//! The old bits of the model's latch elements, as functions of the variables.

ghost use Rattle.std.specs.Prelude.{◌≡◌, ◌≢◌, ℕ, ◌+◌, ◌<◌, ◌≤◌, IfOk};
ghost use Rattle.bdd_core.specs.Diagram.{Valuation};
ghost use Rattle.bdd_core.specs.Store.{IsSpan};
ghost use Rattle.bdd_core.specs.Words.{IsFilled, Writes, shows, word_at};
ghost use Rattle.bdd_ops.specs.Counting.{Counts};

use bdd_core::{Spent, Store};
use node_pool::Span;
use vrt_model::Var;

/// Writes a variable into a word.
fn open_element(store: &mut Store, variable: u32, held: Span, at: u32) -> Result<(), Spent>
    requires variable { variable < store.old.vars }
    requires held { IsSpan store.old held × IsFilled store.old held }
    requires at { at < held.len }
    ensures writes { Writes held store.old store.new }
    ensures apart { (k : ℕ) → k ≢ at → word_at store.new held k ≡ word_at store.old held k }
    ensures is { IfOk result (λ _. (v : Valuation) → shows store.new held at v ≡ v variable) }
    ensures counts { (u : ℕ) → variable < u → Counts u 1 store.old store.new result }
{
    store.sound();
    let bit = match store.bit(Var(variable)) {
        Ok(bit) => bit,
        Err(spent) => return Err(spent),
    };
    store.write(held, at, bit.0);
    Ok(())
}

/// Writes the variable of each latch element, of which the first has this number.
pub(crate) fn open_elements(store: &mut Store, first: u32, held: Span) -> Result<(), Spent>
    requires vars { first + held.len ≤ store.old.vars }
    requires held { IsSpan store.old held × IsFilled store.old held }
    ensures writes { Writes held store.old store.new }
    ensures elements { IfOk result (λ _. (e : ℕ) → e < held.len → (v : Valuation) → shows store.new held e v ≡ v (first + e)) }
    ensures counts { (u : ℕ) → first + held.len ≤ u → Counts u held.len store.old store.new result }
{
    store.sound();
    let _vars = store.vars();
    for e in 0..held.len {
        match open_element(store, first + e, held, e) {
            Ok(()) => {}
            Err(spent) => return Err(spent),
        }
    }
    Ok(())
}
