//! One of two functions, by a bit that selects.

ghost use Rattle.std.specs.Prelude.{ℕ};
ghost use Rattle.bdd_core.specs.Diagram.{IsWithin};
ghost use Rattle.bdd_core.specs.Store.{IsLive, function_of, Gives};
ghost use Rattle.bdd_ops.specs.Counting.{Counts};
ghost use Rattle.blif_eval.specs.Settled.{stored};

use bdd_core::{H, Spent, Store};

/// What an element stores: what it takes in where its control opens it, and elsewhere its old bit. So an input of a cover
/// selects between two functions.
pub(crate) fn choose(
    store: &mut Store,
    open_at: bool,
    control: H,
    source: H,
    held: H,
) -> Result<H, Spent>
    requires { IsLive store.old control × IsLive store.old source × IsLive store.old held }
    ensures gives { Gives store.old store.new (λ v. stored open_at (function_of store.old control v) (function_of store.old source v) (function_of store.old held v)) result }
    ensures counts { (u : ℕ) → IsWithin u (function_of store.old control) → IsWithin u (function_of store.old source) → IsWithin u (function_of store.old held) → Counts u 1 store.old store.new result }
{
    store.sound();
    if open_at {
        store.ite(control, source, held)
    } else {
        store.ite(control, held, source)
    }
}
