//! Where one wish is missed.

ghost use Rattle.std.specs.Prelude.{◌≡◌, ◌<◌, ℕ, IfErr, IfOk, length};
ghost use Rattle.bdd_core.specs.Diagram.{IsSame, IsWithin};
ghost use Rattle.bdd_core.specs.Store.{AddsNodes, Gives, IsLive, Means, function_of};
ghost use Rattle.bdd_ops.specs.Counting.{Counts};
ghost use Rattle.bdd_ops.specs.Ops.{not_of};
ghost use Rattle.phase_wishes.specs.Missed.{AreBits, AreWithin, IsCompared, IsComparedAt, IsFreeInside, IsInside, asked_in, difference_of, is_turned, source_at, turned_of};

use crate::wishes::{Wanted, Wish, WishBits};
use bdd_core::{H, ONE, Spent, Store, ZERO};
use bdd_ops::{and, not};

/// A wish that is missed. `at` is the function that is 1 at the valuations of the care set at which the wish is asked for and the
/// net does not have the bit that it ought to.
#[derive(Clone, Copy)]
pub struct WishFault {
    /// The wish that is missed.
    pub wish: Wish,
    /// At which valuations it is missed: a function that is not constant 0.
    pub at: H,
    /// The bit of the net.
    pub circuit: H,
    /// The bit that the net ought to have.
    pub wanted: H,
}

/// A function and its complement.
#[derive(Clone, Copy)]
struct Opposites {
    /// The bit that a net ought to have.
    wanted: H,
    /// The other bit.
    other: H,
}

/// Whether the inverse of a bit is wanted.
fn is_turned(wanted: Wanted) -> bool
    ensures { result ≡ is_turned wanted }
{
    match wanted {
        Wanted::Signal(_) => false,
        Wanted::Element { inverted, .. } => inverted,
        Wanted::Other { inverted, .. } => inverted,
        Wanted::Constant(_) => false,
    }
}

/// The handle of the bit that is wanted, or whose inverse is.
fn source(store: &Store, bits: WishBits, wanted: Wanted) -> H
    requires bits { AreBits store.now bits }
    requires inside { IsInside bits wanted }
    ensures live { IsLive store.now result }
    ensures same { IsSame (function_of store.now result) (source_at store.now bits wanted) }
{
    store.sound();
    match wanted {
        Wanted::Signal(signal) => H(store.read(bits.values, signal)),
        Wanted::Element { element, .. } => H(store.read(bits.next, element)),
        Wanted::Other { net, .. } => H(store.read(bits.gates, net.0)),
        Wanted::Constant(true) => ONE,
        Wanted::Constant(false) => ZERO,
    }
}

/// A bit or its inverse, and the other bit.
fn turned(store: &mut Store, source: H, inverted: bool) -> Result<Opposites, Spent>
    requires { IsLive store.old source }
    ensures adds { AddsNodes store.old store.new }
    ensures wanted { IfOk result (λ s. Means store.new s.wanted (turned_of inverted (function_of store.old source))) }
    ensures other { IfOk result (λ s. Means store.new s.other (not_of (turned_of inverted (function_of store.old source)))) }
    ensures spent { IfErr result (λ s. (s.nodes ≡ store.new.budget) × (length store.new.nodes ≡ store.new.budget)) }
    ensures counts { (u : ℕ) → IsWithin u (function_of store.old source) → Counts u 1 store.old store.new result }
{
    store.sound();
    let inverse = match not(store, source) {
        Ok(inverse) => inverse,
        Err(spent) => return Err(spent),
    };
    if inverted {
        Ok(Opposites {
            wanted: inverse,
            other: source,
        })
    } else {
        Ok(Opposites {
            wanted: source,
            other: inverse,
        })
    }
}

/// Where there is care and a wish is asked for: its don't-care bit, if it has one, is 0. A wish that has none needs no operation.
fn asked_in(store: &mut Store, care: H, bits: WishBits, free: Option<u32>) -> Result<H, Spent>
    requires care { IsLive store.old care }
    requires bits { AreBits store.old bits }
    requires inside { IsFreeInside bits free }
    ensures adds { AddsNodes store.old store.new }
    ensures means { IfOk result (λ h. Means store.new h (asked_in store.old care bits free)) }
    ensures spent { IfErr result (λ s. (s.nodes ≡ store.new.budget) × (length store.new.nodes ≡ store.new.budget)) }
    ensures counts { (u : ℕ) → IsWithin u (function_of store.old care) → AreWithin u store.old bits → Counts u 1 store.old store.new result }
{
    store.sound();
    match free {
        Some(bit) => {
            let free = H(store.read(bits.values, bit));
            store.ite(free, ZERO, care)
        }
        None => Ok(care),
    }
}

/// Where there is care and the bit of a net is not the wanted one.
fn difference(store: &mut Store, care: H, net: H, both: Opposites) -> Result<H, Spent>
    requires live { IsLive store.old care × IsLive store.old net × IsLive store.old both.wanted × IsLive store.old both.other }
    requires other { IsSame (function_of store.old both.other) (not_of (function_of store.old both.wanted)) }
    ensures gives { Gives store.old store.new (difference_of (function_of store.old care) (function_of store.old net) (function_of store.old both.wanted)) result }
    ensures counts { (u : ℕ) → IsWithin u (function_of store.old care) → IsWithin u (function_of store.old net) → IsWithin u (function_of store.old both.wanted) → Counts u 2 store.old store.new result }
{
    store.sound();
    let apart = match store.ite(net, both.other, both.wanted) {
        Ok(apart) => apart,
        Err(spent) => return Err(spent),
    };
    and(store, care, apart)
}

/// Where a wish is missed among those valuations at which it is asked for.
fn compare(store: &mut Store, asked: H, bits: WishBits, wish: Wish) -> Result<WishFault, Spent>
    requires asked { IsLive store.old asked }
    requires bits { AreBits store.old bits }
    requires net { wish.net.0 < bits.gates.len }
    requires inside { IsInside bits wish.wanted }
    ensures adds { AddsNodes store.old store.new }
    ensures compared { IfOk result (IsComparedAt store.old store.new (function_of store.old asked) bits wish) }
    ensures spent { IfErr result (λ s. (s.nodes ≡ store.new.budget) × (length store.new.nodes ≡ store.new.budget)) }
    ensures counts { (u : ℕ) → IsWithin u (function_of store.old asked) → AreWithin u store.old bits → Counts u 3 store.old store.new result }
{
    store.sound();
    let circuit = H(store.read(bits.gates, wish.net.0));
    let source = source(store, bits, wish.wanted);
    let both = match turned(store, source, is_turned(wish.wanted)) {
        Ok(both) => both,
        Err(spent) => return Err(spent),
    };
    let at = match difference(store, asked, circuit, both) {
        Ok(at) => at,
        Err(spent) => return Err(spent),
    };
    Ok(WishFault {
        wish,
        at,
        circuit,
        wanted: both.wanted,
    })
}

/// Where a wish is asked for and missed, with the bit of its net and the bit that this ought to have.
pub(crate) fn check_wish(
    store: &mut Store,
    care: H,
    bits: WishBits,
    wish: Wish,
) -> Result<WishFault, Spent>
    requires care { IsLive store.old care }
    requires bits { AreBits store.old bits }
    requires net { wish.net.0 < bits.gates.len }
    requires inside { IsInside bits wish.wanted }
    requires free { IsFreeInside bits wish.free }
    ensures adds { AddsNodes store.old store.new }
    ensures compared { IfOk result (IsCompared store.old store.new care bits wish) }
    ensures spent { IfErr result (λ s. (s.nodes ≡ store.new.budget) × (length store.new.nodes ≡ store.new.budget)) }
    ensures counts { (u : ℕ) → IsWithin u (function_of store.old care) → AreWithin u store.old bits → Counts u 4 store.old store.new result }
{
    let asked = match asked_in(store, care, bits, wish.free) {
        Ok(asked) => asked,
        Err(spent) => return Err(spent),
    };
    compare(store, asked, bits, wish)
}
