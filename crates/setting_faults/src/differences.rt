//! Whether two lists of handles are the same on observed nets.

ghost use Rattle.std.specs.Prelude.{◌≡◌, ℕ, ◌*◌, ◌<◌, length, true, IfErr, IfOk};
ghost use Rattle.bdd_core.specs.Diagram.{IsWithin};
ghost use Rattle.bdd_core.specs.Store.{AddsNodes, Gives, IsLive, IsSpan, function_of};
ghost use Rattle.bdd_core.specs.Words.{IsFilled, shows};
ghost use Rattle.bdd_ops.specs.Counting.{Counts, IsSpanWithin};
ghost use Rattle.circuit_faults.specs.Operations.{IsUsedUp};
ghost use Rattle.setting_faults.specs.Differences.{DifferGives, NetDiffers, difference_of};
ghost use Rattle.vrt_model.specs.Lists.{mark_at};

use bdd_core::{H, Spent, Store};
use bdd_ops::{and, xor};
use node_pool::Span;

/// Where in the care set two functions have different values.
fn difference(store: &mut Store, care: H, left: H, right: H) -> Result<H, Spent>
    requires { IsLive store.old care × IsLive store.old left × IsLive store.old right }
    ensures gives { Gives store.old store.new (difference_of (function_of store.old care) (function_of store.old left) (function_of store.old right)) result }
    ensures counts { (u : ℕ) → IsWithin u (function_of store.old care) → IsWithin u (function_of store.old left) → IsWithin u (function_of store.old right) → Counts u 3 store.old store.new result }
{
    store.sound();
    let either = match xor(store, left, right) {
        Ok(either) => either,
        Err(spent) => return Err(spent),
    };
    and(store, care, either)
}

/// Where in the care set the two functions of a net have different values, if the net is seen and they do somewhere.
fn net_difference(
    store: &mut Store,
    seen: bool,
    care: H,
    left: H,
    right: H,
) -> Result<Option<H>, Spent>
    requires { IsLive store.old care × IsLive store.old left × IsLive store.old right }
    ensures adds { AddsNodes store.old store.new }
    ensures gives { IfOk result (NetDiffers seen (difference_of (function_of store.old care) (function_of store.old left) (function_of store.old right)) store.new) }
    ensures counts { (u : ℕ) → IsWithin u (function_of store.old care) → IsWithin u (function_of store.old left) → IsWithin u (function_of store.old right) → Counts u 3 store.old store.new result }
    ensures spent { IfErr result (IsUsedUp store.old store.new) }
{
    store.sound();
    if !seen {
        return Ok(None);
    }
    let at = match difference(store, care, left, right) {
        Ok(at) => at,
        Err(spent) => return Err(spent),
    };
    if at.0 == 0 {
        return Ok(None);
    }
    Ok(Some(at))
}

/// The first observed net whose two handles, by its number in `left` and in `right`, have different values in the care set: where they do. None
/// where all observed nets have the same there. No word changes.
///
/// Where the handles read only the first `u` variables, it takes at most three operations of `2 ^ u` nodes for each net. `Spent` comes only where
/// the budget is less than all these with the nodes that were there, and has the budget.
pub fn first_difference(
    store: &mut Store,
    observed: &[bool],
    care: H,
    left: Span,
    right: Span,
) -> Result<Option<H>, Spent>
    requires care { IsLive store.old care }
    requires left { IsSpan store.old left × IsFilled store.old left × (left.len ≡ length observed.now) }
    requires right { IsSpan store.old right × IsFilled store.old right × (right.len ≡ length observed.now) }
    ensures adds { AddsNodes store.old store.new }
    ensures gives { IfOk result (DifferGives (mark_at observed.now) (function_of store.old care) left right store.old store.new) }
    ensures few { (u : ℕ) → IsWithin u (function_of store.old care) → IsSpanWithin u store.old left → IsSpanWithin u store.old right → Counts u (3 * length observed.now) store.old store.new result }
    ensures spent { IfErr result (IsUsedUp store.old store.new) }
{
    store.sound();
    for n in 0..left.len {
        let one = H(store.read(left, n));
        let other = H(store.read(right, n));
        let found = match net_difference(store, observed[n as usize], care, one, other) {
            Ok(found) => found,
            Err(spent) => return Err(spent),
        };
        if let Some(at) = found {
            return Ok(Some(at));
        }
    }
    Ok(None)
}
