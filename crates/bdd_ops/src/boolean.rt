//! Operations that make a diagram.

ghost use Rattle.std.specs.Prelude.{◌≡◌, ◌<◌, ◌-◌, length};
ghost use Rattle.bdd_core.specs.Diagram.{fixed};
ghost use Rattle.bdd_core.specs.Store.{IsLive, Makes, IsExact, function_of};
ghost use Rattle.bdd_ops.specs.Ops.{MakesBoth, IsExactBoth, and_of, or_of, not_of, implies_of, xor_of};

use bdd_core::{H, ONE, Spent, Store, ZERO};
use vrt_model::Var;

/// The function that is 1 where both are.
pub fn and(store: &mut Store, f: H, g: H) -> Result<H, Spent>
    requires { IsLive store.old f × IsLive store.old g }
    ensures makes { Makes store.old store.new (and_of (function_of store.old f) (function_of store.old g)) result }
    ensures exact { IsExact store.old store.new (and_of (function_of store.old f) (function_of store.old g)) result }
{
    store.sound();
    store.ite(f, g, ZERO)
}

/// The function that is 1 where one of them or both are.
pub fn or(store: &mut Store, f: H, g: H) -> Result<H, Spent>
    requires { IsLive store.old f × IsLive store.old g }
    ensures makes { Makes store.old store.new (or_of (function_of store.old f) (function_of store.old g)) result }
    ensures exact { IsExact store.old store.new (or_of (function_of store.old f) (function_of store.old g)) result }
{
    store.sound();
    store.ite(f, ONE, g)
}

/// The function that is 0 where `f` is 1 and `g` is 0, and 1 elsewhere.
pub fn implies(store: &mut Store, f: H, g: H) -> Result<H, Spent>
    requires { IsLive store.old f × IsLive store.old g }
    ensures makes { Makes store.old store.new (implies_of (function_of store.old f) (function_of store.old g)) result }
    ensures exact { IsExact store.old store.new (implies_of (function_of store.old f) (function_of store.old g)) result }
{
    store.sound();
    store.ite(f, g, ONE)
}

/// The complement.
pub fn not(store: &mut Store, f: H) -> Result<H, Spent>
    requires { IsLive store.old f }
    ensures makes { Makes store.old store.new (not_of (function_of store.old f)) result }
    ensures exact { IsExact store.old store.new (not_of (function_of store.old f)) result }
{
    store.sound();
    store.ite(f, ZERO, ONE)
}

/// The function that is 1 where exactly one of them is. The complement of `g` is made first, and the diagrams of the
/// two count together.
pub fn xor(store: &mut Store, f: H, g: H) -> Result<H, Spent>
    requires { IsLive store.old f × IsLive store.old g }
    ensures makes { MakesBoth store.old store.new (not_of (function_of store.old g)) (xor_of (function_of store.old f) (function_of store.old g)) result }
    ensures exact { IsExactBoth store.old store.new (not_of (function_of store.old g)) (xor_of (function_of store.old f) (function_of store.old g)) result }
{
    store.sound();
    let other = match not(store, g) {
        Ok(other) => other,
        Err(spent) => return Err(spent),
    };
    store.ite(f, other, g)
}

/// The function `f` with a variable fixed at a value.
pub fn restrict(store: &mut Store, f: H, var: Var, value: bool) -> Result<H, Spent>
    requires { IsLive store.old f }
    ensures makes { Makes store.old store.new (fixed (function_of store.old f) var.0 value) result }
    ensures exact { IsExact store.old store.new (fixed (function_of store.old f) var.0 value) result }
{
    store.restrict(f, var, value)
}
