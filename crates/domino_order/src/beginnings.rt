//! The valuations at which steps of a net begin: those that the inputs that rise and have not risen yet take to an end.

ghost use Rattle.std.specs.Prelude.{◌≡◌, ℕ, ◌+◌, ◌*◌, ◌<◌, All, length};
ghost use Rattle.bdd_core.specs.Store.{Gives, IsLive, IsSpan, function_of};
ghost use Rattle.bdd_core.specs.Words.{IsFilled};
ghost use Rattle.bdd_ops.specs.Counting.{Counts};
ghost use Rattle.domino_order.specs.Beginnings.{IsLong, begins_of, beside_of, near_of, reached_of};

use bdd_core::{H, Spent, Store, ZERO};
use bdd_ops::{and, or};
use node_pool::Span;
use step_roots::{before, moved, same_bits};
use vrt_model::Valuation;

/// Where steps begin that end with the first of these bits, and whose arrivals come before the others.
fn beside(store: &mut Store, order: &[u32], arrivals: &[u32], bits: &[bool]) -> Result<H, Spent>
    requires order { All (λ (x : ℕ). x < store.old.vars) order.now }
    requires arrivals { All (λ (x : ℕ). x < store.old.vars) arrivals.now }
    requires bits { length bits.now ≡ length order.now + length arrivals.now }
    ensures gives { Gives store.old store.new (beside_of order.now arrivals.now bits.now) result }
    ensures counts { Counts store.old.vars (2 * length order.now + 4 * length arrivals.now + 1) store.old store.new result }
{
    store.sound();
    let end = match same_bits(store, order, &bits[..order.len()]) {
        Ok(end) => end,
        Err(spent) => return Err(spent),
    };
    let near = match moved(store, arrivals, true, end) {
        Ok(near) => near,
        Err(spent) => return Err(spent),
    };
    let less = match before(store, arrivals, &bits[order.len()..]) {
        Ok(less) => less,
        Err(spent) => return Err(spent),
    };
    and(store, near, less)
}

/// Where steps begin that have one of these ends; and beside a bound, if there is one.
fn reached(
    store: &mut Store,
    order: &[u32],
    arrivals: &[u32],
    bound: &Option<Valuation>,
    ends: H,
) -> Result<H, Spent>
    requires order { All (λ (x : ℕ). x < store.old.vars) order.now }
    requires arrivals { All (λ (x : ℕ). x < store.old.vars) arrivals.now }
    requires bound { IsLong (length order.now + length arrivals.now) bound.now }
    requires ends { IsLive store.old ends }
    ensures gives { Gives store.old store.new (reached_of order.now arrivals.now bound.now (function_of store.old ends)) result }
    ensures counts { Counts store.old.vars (2 * length order.now + 6 * length arrivals.now + 2) store.old store.new result }
{
    store.sound();
    let from = match moved(store, arrivals, true, ends) {
        Ok(from) => from,
        Err(spent) => return Err(spent),
    };
    let Some(bound) = bound else {
        return Ok(from);
    };
    let beside = match beside(store, order, arrivals, bound.bits.as_slice()) {
        Ok(beside) => beside,
        Err(spent) => return Err(spent),
    };
    or(store, from, beside)
}

/// Where steps of the net begin that have one of these ends, and beside a bound, if there is one: the net has not risen there.
pub(crate) fn beginnings(
    store: &mut Store,
    order: &[u32],
    arrivals: &[u32],
    net: u32,
    bound: &Option<Valuation>,
    ends: H,
    given: Span,
) -> Result<H, Spent>
    requires order { All (λ (x : ℕ). x < store.old.vars) order.now }
    requires arrivals { All (λ (x : ℕ). x < store.old.vars) arrivals.now }
    requires bound { IsLong (length order.now + length arrivals.now) bound.now }
    requires ends { IsLive store.old ends }
    requires given { IsSpan store.old given × IsFilled store.old given × (net < given.len) }
    ensures gives { Gives store.old store.new (begins_of store.old net given order.now arrivals.now bound.now (function_of store.old ends)) result }
    ensures counts { Counts store.old.vars (2 * length order.now + 6 * length arrivals.now + 3) store.old store.new result }
{
    store.sound();
    let all = match reached(store, order, arrivals, bound, ends) {
        Ok(all) => all,
        Err(spent) => return Err(spent),
    };
    let risen = H(store.read(given, net));
    store.ite(risen, ZERO, all)
}

/// Of some ends those of steps that begin with these bits.
pub(crate) fn near_ends(
    store: &mut Store,
    order: &[u32],
    arrivals: &[u32],
    ends: H,
    begin: &[bool],
) -> Result<H, Spent>
    requires order { All (λ (x : ℕ). x < store.old.vars) order.now }
    requires begin { length begin.now ≡ length order.now }
    requires ends { IsLive store.old ends }
    ensures gives { Gives store.old store.new (near_of order.now arrivals.now begin.now (function_of store.old ends)) result }
    ensures counts { Counts store.old.vars (2 * length order.now + 2 * length arrivals.now + 1) store.old store.new result }
{
    store.sound();
    let point = match same_bits(store, order, begin) {
        Ok(point) => point,
        Err(spent) => return Err(spent),
    };
    let later = match moved(store, arrivals, false, point) {
        Ok(later) => later,
        Err(spent) => return Err(spent),
    };
    and(store, ends, later)
}
