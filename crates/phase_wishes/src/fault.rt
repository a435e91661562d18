//! The first wish that is missed.

ghost use Rattle.std.specs.Prelude.{◌≡◌, ◌≢◌, ℕ, ◌*◌, ◌<◌, All, IsTrue, false, length, IfErr, IfOk};
ghost use Rattle.bdd_core.specs.Diagram.{IsWithin};
ghost use Rattle.bdd_core.specs.Store.{AddsNodes, IsLive, function_of};
ghost use Rattle.bdd_ops.specs.Counting.{Counts};
ghost use Rattle.vrt_model.specs.Lists.{At};
ghost use Rattle.phase_wishes.specs.Missed.{AreBits, AreWithin, IsWithinBits, WishesFind, WishesGive};

use crate::missed::{WishFault, check_wish};
use crate::wishes::{Wish, WishBits};
use bdd_core::{H, Spent, Store};

/// The wish at a place.
fn wish_at(wishes: &[Wish], at: usize) -> Wish
    requires { at < length wishes.now }
    ensures { At wishes.now at result }
{
    wishes[at]
}

/// Whether a function is 1 at some valuation, which the handle says.
fn is_somewhere(at: H) -> bool
    ensures somewhere { IsTrue result → at.0 ≢ 0 }
    ensures nowhere { result ≡ false → at.0 ≡ 0 }
{
    at.0 != 0
}

/// The first wish that is missed somewhere in the care set.
fn first_missed(
    store: &mut Store,
    wishes: &[Wish],
    care: H,
    bits: WishBits,
) -> Result<Option<WishFault>, Spent>
    requires care { IsLive store.old care }
    requires bits { AreBits store.old bits }
    requires wishes { All (IsWithinBits bits) wishes.now }
    ensures adds { AddsNodes store.old store.new }
    ensures gives { IfOk result (WishesGive wishes.now care bits store.old store.new) }
    ensures spent { IfErr result (λ s. (s.nodes ≡ store.new.budget) × (length store.new.nodes ≡ store.new.budget)) }
    ensures counts { (u : ℕ) → IsWithin u (function_of store.old care) → AreWithin u store.old bits → Counts u (4 * length wishes.now) store.old store.new result }
{
    store.sound();
    for i in 0..wishes.len() {
        let fault = match check_wish(store, care, bits, wish_at(wishes, i)) {
            Ok(fault) => fault,
            Err(spent) => return Err(spent),
        };
        if is_somewhere(fault.at) {
            return Ok(Some(fault));
        }
    }
    Ok(None)
}

/// The first of some wishes that is missed somewhere in the care set: its don't-care bit, if it has one, is 0, and the bit of its
/// net, of which `gates` has the handles, is not the one that it ought to be. Of signals and of the new bits of latch elements `values` and `next` have the handles.
///
/// Nodes alone are added, and no word is written, also where the budget is used up. `Spent` has the budget. For handles
/// that read only the first `u` variables there are at most four operations of `2 ^ u` nodes for each wish.
pub fn wish_fault(
    store: &mut Store,
    wishes: &[Wish],
    care: H,
    bits: WishBits,
) -> Result<Option<WishFault>, Spent>
    requires care { IsLive store.old care }
    requires bits { AreBits store.old bits }
    requires wishes { All (IsWithinBits bits) wishes.now }
    ensures adds { AddsNodes store.old store.new }
    ensures gives { IfOk result (WishesGive wishes.now care bits store.old store.new) }
    ensures found { IfOk result (WishesFind wishes.now care bits store.old store.new) }
    ensures spent { IfErr result (λ s. (s.nodes ≡ store.new.budget) × (length store.new.nodes ≡ store.new.budget)) }
    ensures counts { (u : ℕ) → IsWithin u (function_of store.old care) → AreWithin u store.old bits → Counts u (4 * length wishes.now) store.old store.new result }
{
    first_missed(store, wishes, care, bits)
}
