//! A function of variables that stand for functions, composed of these.

ghost use Rattle.std.specs.Prelude.{ℕ, ◌+◌, ◌-◌, ◌^◌, ◌≤◌};
ghost use Rattle.bdd_core.specs.Diagram.{IsWithin, top};
ghost use Rattle.bdd_core.specs.Store.{Gives, IsLive, function_of};
ghost use Rattle.bdd_ops.specs.Counting.{Counts};
ghost use Rattle.part_functions.specs.Inner.{AreLive, AreWithin, composed_of};

use crate::few::PartFunctions;
use bdd_core::{H, Spent, Store};

/// A function over the variables that stand for the functions, with these in their place. Where the functions read only the first `u`
/// variables, it takes fewer than `2 ^ n` operations of `2 ^ u` nodes for n functions.
pub fn composed(store: &mut Store, functions: PartFunctions, f: H) -> Result<H, Spent>
    requires functions { AreLive functions store.old × (functions.count ≤ 6) }
    requires live { IsLive store.old f }
    requires within { IsWithin functions.count (function_of store.old f) }
    ensures gives { Gives store.old store.new (composed_of functions store.old (function_of store.old f)) result }
    ensures counts { (u b : ℕ) → AreWithin u functions store.old → functions.count ≤ top store.old.nodes f.0 + b → Counts u (2 ^ b - 1) store.old store.new result }
{
    store.sound();
    let Some(node) = store.node(f) else {
        return Ok(f);
    };
    let lo = match composed(store, functions, H(node.lo)) {
        Ok(lo) => lo,
        Err(spent) => return Err(spent),
    };
    let hi = match composed(store, functions, H(node.hi)) {
        Ok(hi) => hi,
        Err(spent) => return Err(spent),
    };
    store.ite(functions.at(node.var), hi, lo)
}
