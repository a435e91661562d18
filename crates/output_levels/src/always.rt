//! Whether a function is constant in a care set.

ghost use Rattle.std.specs.Prelude.{◌≡◌, ◌↔◌, ℕ, true, IfOk};
ghost use Rattle.bdd_core.specs.Diagram.{IsWithin};
ghost use Rattle.bdd_core.specs.Store.{AddsNodes, IsLive, function_of};
ghost use Rattle.bdd_ops.specs.Counting.{Counts};
ghost use Rattle.output_levels.specs.Always.{IsAlways, IsNever};

use bdd_core::{H, Spent, Store, ZERO};
use bdd_ops::and;

/// Whether a function is 1 wherever there is care.
pub(crate) fn is_always(store: &mut Store, care: H, f: H) -> Result<bool, Spent>
    requires { IsLive store.old care × IsLive store.old f }
    ensures adds { AddsNodes store.old store.new }
    ensures is { IfOk result (λ b. (b ≡ true) ↔ IsAlways (function_of store.old care) (function_of store.old f)) }
    ensures few { (u : ℕ) → IsWithin u (function_of store.old care) → IsWithin u (function_of store.old f) → Counts u 1 store.old store.new result }
{
    store.sound();
    let lacks = match store.ite(f, ZERO, care) {
        Ok(lacks) => lacks,
        Err(spent) => return Err(spent),
    };
    Ok(lacks.0 == 0)
}

/// Whether a function is 0 wherever there is care.
pub(crate) fn is_never(store: &mut Store, care: H, f: H) -> Result<bool, Spent>
    requires { IsLive store.old care × IsLive store.old f }
    ensures adds { AddsNodes store.old store.new }
    ensures is { IfOk result (λ b. (b ≡ true) ↔ IsNever (function_of store.old care) (function_of store.old f)) }
    ensures few { (u : ℕ) → IsWithin u (function_of store.old care) → IsWithin u (function_of store.old f) → Counts u 1 store.old store.new result }
{
    store.sound();
    let some = match and(store, care, f) {
        Ok(some) => some,
        Err(spent) => return Err(spent),
    };
    Ok(some.0 == 0)
}
