//! The bits of nets at the settings of a step, as functions.

ghost use Rattle.std.specs.Prelude.{◌≡◌, ℕ, ◌<◌, ◌≤◌, All, true};
ghost use Rattle.bdd_core.specs.Store.{IsSpan};
ghost use Rattle.bdd_core.specs.Words.{IsApart, IsFilled, Writes, word_at};
ghost use Rattle.known_nets.specs.Conduction.{is_plain_at};
ghost use Rattle.step_roots.specs.Roots.{IsPlainHold};
ghost use Rattle.vrt_model.specs.declared.circuit.Hold.{Hold as HoldValue};

use bdd_core::Store;
use known_nets::is_plain;
use node_pool::Span;
use vrt_model::{Circuit, Net};

/// Copies the first handles of a span into another, which is filled.
pub fn copy_handles(store: &mut Store, from: Span, to: Span)
    requires from { IsSpan store.old from × IsFilled store.old from }
    requires to { IsSpan store.old to × (to.len ≤ from.len) }
    requires apart { IsApart from to }
    ensures writes { Writes to store.old store.new }
    ensures rest { store.new ≡ record store.old { words = store.new.words } }
    ensures copied { (k : ℕ) → k < to.len → word_at store.new to k ≡ word_at store.old from k }
{
    store.sound();
    for k in 0..to.len {
        let word = store.read(from, k);
        store.write(to, k, word);
    }
}

/// Gives the hold at a net the bit of the net, if the net is plain.
fn take_bit(store: &mut Store, circuit: &Circuit, net: Net, gates: Span, roots: Span)
    requires net { (net.0 < gates.len) × (net.0 < roots.len) }
    requires gates { IsSpan store.old gates × IsFilled store.old gates }
    requires roots { IsSpan store.old roots × IsFilled store.old roots }
    ensures writes { Writes roots store.old store.new }
    ensures rest { store.new ≡ record store.old { words = store.new.words } }
    ensures taken { is_plain_at circuit.now net.0 ≡ true → word_at store.new roots net.0 ≡ word_at store.old gates net.0 }
    ensures others { (k : ℕ) → ¬ ((k ≡ net.0) × (is_plain_at circuit.now net.0 ≡ true)) → word_at store.new roots k ≡ word_at store.old roots k }
{
    store.sound();
    if is_plain(circuit, net.0 as usize) {
        let bit = store.read(gates, net.0);
        store.write(roots, net.0, bit);
    }
}

/// Gives each hold at a plain net the bit of its net.
pub fn take_bits(store: &mut Store, circuit: &Circuit, gates: Span, roots: Span)
    requires holds { All (λ (h : HoldValue). (h.net.0 < gates.len) × (h.net.0 < roots.len)) circuit.now.holds }
    requires gates { IsSpan store.old gates × IsFilled store.old gates }
    requires roots { IsSpan store.old roots × IsFilled store.old roots }
    requires apart { IsApart gates roots }
    ensures writes { Writes roots store.old store.new }
    ensures rest { store.new ≡ record store.old { words = store.new.words } }
    ensures taken { (n : ℕ) → IsPlainHold circuit.now n → word_at store.new roots n ≡ word_at store.old gates n }
    ensures others { (n : ℕ) → ¬ IsPlainHold circuit.now n → word_at store.new roots n ≡ word_at store.old roots n }
{
    store.sound();
    for hold in circuit.holds.as_slice() {
        take_bit(store, circuit, hold.net, gates, roots);
    }
}
