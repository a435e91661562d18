//! Whether the words of the inputs of a circuit have the handles of their variables.

ghost use Rattle.std.specs.Prelude.{◌≡◌, ◌<◌, IsTrue, length, position};
ghost use Rattle.bdd_core.specs.Diagram.{Valuation};
ghost use Rattle.bdd_core.specs.Store.{IsLive, IsSpan, function_of};
ghost use Rattle.bdd_core.specs.Words.{IsFilled};
ghost use Rattle.constraints.specs.Cared.{HasInputs};
ghost use Rattle.phase_rows.specs.Given.{HasInput};
ghost use Rattle.hold_keep.specs.Rooted.{bit_by};
ghost use Rattle.vrt_model.specs.Held.{is_input_of};

use bdd_core::{H, Store};
use known_nets::is_input;
use node_pool::Span;
use vrt_model::{Circuit, Source};

/// Whether a variable is that of an input net.
fn is_input_of(source: Source, net: u32) -> bool
    ensures { result ≡ is_input_of net source }
{
    match source {
        Source::Input(other) => other.0 == net,
        Source::Element(_) => false,
        Source::Group(_) => false,
    }
}

/// The place of the variable of an input.
fn input_place(sources: &[Source], net: u32) -> Option<usize>
    ensures { result ≡ position (is_input_of net) sources.now }
{
    sources.iter().position(|source| is_input_of(*source, net))
}

/// Whether a handle is that of the variable of a place, or the constant 0 where there is none.
#[tactic(auto, using(crate::proofs::InputLaws::none_is))]
fn is_bit(store: &Store, handle: H, place: Option<usize>) -> bool
    requires { IsLive store.now handle }
    ensures { IsTrue result → (v : Valuation) → function_of store.now handle v ≡ bit_by place v }
{
    store.sound();
    let Some(at) = place else {
        return handle.0 == 0;
    };
    let Some(node) = store.node(handle) else {
        return false;
    };
    if node.var as usize != at {
        return false;
    }
    if node.lo != 0 {
        return false;
    }
    if node.hi != 1 {
        return false;
    }
    true
}

/// Whether a word of a net, if it is an input, has the handle of its variable.
fn has_input(store: &Store, circuit: &Circuit, sources: &[Source], roots: Span, net: u32) -> bool
    requires span { IsSpan store.now roots }
    requires live { IsFilled store.now roots }
    requires within { net < roots.len }
    ensures { IsTrue result → HasInput circuit.now sources.now store.now roots net }
{
    if !is_input(circuit, net as usize) {
        return true;
    }
    let handle = H(store.read(roots, net));
    is_bit(store, handle, input_place(sources, net))
}

/// Whether the words of the inputs of a circuit have the handles of their variables.
#[tactic(auto, using(crate::proofs::InputLaws::inputs_are))]
pub(crate) fn has_inputs(store: &Store, circuit: &Circuit, sources: &[Source], roots: Span) -> bool
    requires span { IsSpan store.now roots }
    requires live { IsFilled store.now roots }
    requires len { roots.len ≡ length circuit.now.nets }
    ensures { IsTrue result → HasInputs circuit.now sources.now store.now roots }
{
    for net in 0..roots.len {
        if !has_input(store, circuit, sources, roots, net) {
            return false;
        }
    }
    true
}
