//! A bit that the function of a handle is to have.

ghost use Rattle.std.specs.Prelude.{ℕ, ◌&&◌, not};
ghost use Rattle.bdd_core.specs.Diagram.{IsWithin};
ghost use Rattle.bdd_core.specs.Store.{Gives, IsLive, function_of};
ghost use Rattle.bdd_ops.specs.Counting.{Counts};
ghost use Rattle.vrt_model.specs.Lists.{differ};

use bdd_core::{H, Spent, Store, ZERO};

/// A function, where besides that of a handle is this bit.
pub(crate) fn add_bit(store: &mut Store, wanted: bool, bit: H, all: H) -> Result<H, Spent>
    requires { IsLive store.old bit × IsLive store.old all }
    ensures gives { Gives store.old store.new (λ v. function_of store.old all v && not (differ wanted (function_of store.old bit v))) result }
    ensures counts { (u : ℕ) → IsWithin u (function_of store.old bit) → IsWithin u (function_of store.old all) → Counts u 1 store.old store.new result }
{
    store.sound();
    if wanted {
        store.ite(bit, all, ZERO)
    } else {
        store.ite(bit, ZERO, all)
    }
}
