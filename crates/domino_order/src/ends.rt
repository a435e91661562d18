//! The valuations at which steps of a net end.

ghost use Rattle.std.specs.Prelude.{◌≡◌, ℕ, ◌+◌, ◌*◌, ◌<◌, ◌&&◌, All, length, true};
ghost use Rattle.bdd_core.specs.Store.{Gives, IsLive, IsSpan, function_of};
ghost use Rattle.bdd_core.specs.Words.{IsFilled};
ghost use Rattle.bdd_ops.specs.Counting.{Counts};
ghost use Rattle.domino_order.specs.Beginnings.{HasFirst, ends_of, high_ends_of};
ghost use Rattle.step_roots.specs.Bits.{compares};

use bdd_core::{H, Spent, Store};
use bdd_ops::and;
use node_pool::Span;
use step_roots::before;
use vrt_model::Valuation;

/// Where there is care, and the net ends at 1.
fn high_ends(store: &mut Store, net: u32, care: H, given: Span) -> Result<H, Spent>
    requires care { IsLive store.old care }
    requires given { IsSpan store.old given × IsFilled store.old given × (net < given.len) }
    ensures gives { Gives store.old store.new (high_ends_of store.old net given (function_of store.old care)) result }
    ensures counts { Counts store.old.vars 1 store.old store.new result }
{
    store.sound();
    let high = H(store.read(given, net));
    and(store, care, high)
}

/// Of some valuations those at which these variables have bits that come before these.
fn ends_before(store: &mut Store, order: &[u32], bits: &[bool], ends: H) -> Result<H, Spent>
    requires ends { IsLive store.old ends }
    requires order { All (λ (x : ℕ). x < store.old.vars) order.now }
    requires bits { length bits.now ≡ length order.now }
    ensures gives { Gives store.old store.new (λ w. function_of store.old ends w && compares true order.now bits.now w) result }
    ensures counts { Counts store.old.vars (2 * length order.now + 1) store.old store.new result }
{
    store.sound();
    let less = match before(store, order, bits) {
        Ok(less) => less,
        Err(spent) => return Err(spent),
    };
    and(store, ends, less)
}

/// The valuations at which steps of the net end: where there is care, it ends at 1, and, if there is a bound, the bits come before those with which
/// that one ends.
pub(crate) fn step_ends(
    store: &mut Store,
    order: &[u32],
    net: u32,
    bound: &Option<Valuation>,
    care: H,
    given: Span,
) -> Result<H, Spent>
    requires care { IsLive store.old care }
    requires given { IsSpan store.old given × IsFilled store.old given × (net < given.len) }
    requires order { All (λ (x : ℕ). x < store.old.vars) order.now }
    requires bound { HasFirst (length order.now) bound.now }
    ensures gives { Gives store.old store.new (ends_of store.old net given order.now bound.now (function_of store.old care)) result }
    ensures counts { Counts store.old.vars (2 * length order.now + 2) store.old store.new result }
{
    store.sound();
    let ends = match high_ends(store, net, care, given) {
        Ok(ends) => ends,
        Err(spent) => return Err(spent),
    };
    let Some(bound) = bound else {
        return Ok(ends);
    };
    ends_before(store, order, &bound.bits.as_slice()[..order.len()], ends)
}
