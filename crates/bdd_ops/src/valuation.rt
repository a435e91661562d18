//! Values of functions at valuations.

ghost use Rattle.std.specs.Prelude.{◌≡◌, ℕ, false, ◌+◌, ◌<◌, ◌≤◌, length, ◌↔◌, ◌≢◌, ◌⊎◌, IsTrue, slice_index};
ghost use Rattle.bdd_core.specs.Diagram.{top};
ghost use Rattle.bdd_core.specs.Store.{IsLive, IsSpan, function_of};
ghost use Rattle.bdd_ops.specs.Ops.{bits_of, bits_in, IsLeast, IsTurn};

use bdd_core::{H, ONE, Store};
use node_pool::Span;
use vrt_model::Valuation;

/// The value of a function where each variable of the store has the bit of its number. It takes at most as many steps
/// as there are variables.
pub fn value_at(store: &Store, f: H, at: &Valuation) -> bool
    requires live { IsLive store.now f }
    requires bits { store.now.vars ≤ length at.now.bits }
    ensures { result ≡ function_of store.now f (bits_of at.now.bits) }
{
    store.sound();
    let bits = at.bits.as_slice();
    let mut place = f;
    while let Some(n) = store.node(place) {
        place = if bits[n.var as usize] {
            H(n.hi)
        } else {
            H(n.lo)
        };
    }
    place == ONE
}

/// From a place that is not the constant 0, the place below it that has the least valuation, and its bit at a variable.
fn turn(store: &Store, place: H, x: u32) -> (H, u32)
    requires live { IsLive store.now place }
    requires some { place.0 ≢ 0 }
    requires first { x ≤ top store.now.nodes place.0 }
    requires within { x < store.now.vars }
    ensures { IsTurn store.now.nodes place.0 x result.0.0 result.1 }
{
    store.sound();
    let Some(n) = store.node(place) else {
        return (place, 0);
    };
    if n.var != x {
        return (place, 0);
    }
    if n.lo == 0 {
        return (H(n.hi), 1);
    }
    (H(n.lo), 0)
}

/// Whether a function is 1 anywhere, which it is exactly where its handle is not the constant 0. If so, the words of
/// `into`, one for each variable, become the bits of the least valuation where it is 1: of two valuations the lesser
/// has 0 at the first variable where they differ. No other word changes.
pub fn least(store: &mut Store, f: H, into: Span) -> bool
    requires f { IsLive store.old f }
    requires into { IsSpan store.old into }
    requires len { into.len ≡ store.old.vars }
    ensures zero { IsTrue result ↔ (f.0 ≢ 0) }
    ensures least { IsTrue result → IsLeast store.old.vars (function_of store.old f) (bits_in store.new.words into.start) }
    ensures bits { IsTrue result → (x : ℕ) → x < store.old.vars → slice_index store.new.words (into.start + x) < 2 }
    ensures kept { result ≡ false → store.new ≡ store.old }
    ensures rest { store.new ≡ record store.old { words = store.new.words } }
    ensures len { length store.new.words ≡ length store.old.words }
    ensures others { (j : ℕ) → (j < into.start) ⊎ (into.start + into.len ≤ j) → slice_index store.new.words j ≡ slice_index store.old.words j }
{
    store.sound();
    if f.0 == 0 {
        return false;
    }
    let vars = store.vars();
    let mut place = f;
    for x in 0..vars {
        let (next, bit) = turn(store, place, x);
        store.write(into, x, bit);
        place = next;
    }
    true
}
