//! The values of functions at a valuation that stands in words.

ghost use Rattle.std.specs.Prelude.{◌≡◌, List, Bool};
ghost use Rattle.bdd_core.specs.Diagram.{Valuation as ValuationValue};
ghost use Rattle.bdd_core.specs.Store.{IsLive, IsSpan, function_of};
ghost use Rattle.bdd_ops.specs.Ops.{bits_of};
ghost use Rattle.phase_terms.specs.Found.{AreValuesLive};
ghost use Rattle.phase_told.specs.Valuations.{HasValues, StandsIn};

use bdd_core::{H, ONE, Store};
use node_pool::Span;
use phase_terms::PhaseFault;

/// The value of a function at the valuation that stands in words, of which there is one for each variable of the store. It takes at
/// most as many steps as there are variables, and no memory.
fn value_in(store: &Store, f: H, words: Span) -> bool
    requires live { IsLive store.now f }
    requires words { IsSpan store.now words × (words.len ≡ store.now.vars) }
    ensures { (v : ValuationValue) → StandsIn store.now words v → result ≡ function_of store.now f v }
{
    store.sound();
    let mut place = f;
    while let Some(n) = store.node(place) {
        let bit = store.read(words, n.var);
        place = if bit == 1 { H(n.hi) } else { H(n.lo) };
    }
    place == ONE
}

/// The bits of the values of a fault, if it is printed with any, at the valuation that stands in its words.
pub(crate) fn values_in(store: &Store, fault: PhaseFault) -> (Option<bool>, Option<bool>)
    requires live { AreValuesLive store.now fault.values }
    requires least { IsSpan store.now fault.least × (fault.least.len ≡ store.now.vars) }
    ensures { (bits : List Bool) → StandsIn store.now fault.least (bits_of bits) → HasValues store.now fault.values bits result }
{
    match fault.values {
        Some((circuit, wanted)) => {
            let has = value_in(store, circuit, fault.least);
            let wants = value_in(store, wanted, fault.least);
            (Some(has), Some(wants))
        }
        None => (None, None),
    }
}
