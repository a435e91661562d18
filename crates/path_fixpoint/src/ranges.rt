//! Whether a part and the spans of its handles are as `solve_part` asks.

ghost use Rattle.std.specs.Prelude.{◌≡◌, ◌+◌, ◌*◌, ◌<◌, ◌≤◌, ◌⊎◌, ◌↔◌, IsTrue, All, length};
ghost use Rattle.bdd_core.specs.Store.{IsSpan};
ghost use Rattle.bdd_core.specs.Words.{IsApart, IsFilled};
ghost use Rattle.vrt_model.specs.Circuits.{IsNet};
ghost use Rattle.vrt_model.specs.Lists.{Among};
ghost use Rattle.path_fixpoint.specs.Parts.{IsGiven, IsPart, IsPartDevice, Rises, pins_of};
ghost use Rattle.path_fixpoint.specs.Solved.{HasRootSpans};
ghost use Rattle.path_fixpoint.specs.Strengths.{net_words, circuit_words};

use crate::Part;
use crate::opening::is_given;
use crate::steps::place;
use crate::words::net_words;
use bdd_core::Store;
use node_pool::Span;
use vrt_model::{Circuit, Dev, Net};

/// Whether the nets of a part rise by number.
pub(crate) fn rises(part: &Part) -> bool
    ensures { IsTrue result ↔ Rises part.now }
{
    let nets = part.nets.as_slice();
    for at in 1..nets.len() {
        if nets[at - 1].0 >= nets[at].0 {
            return false;
        }
    }
    true
}

/// Whether the nets of a part are nets of the circuit.
fn has_nets(circuit: &Circuit, part: &Part) -> bool
    ensures { IsTrue result ↔ All (IsNet circuit.now) part.now.nets }
{
    let mut nets = part.nets.as_slice().iter();
    nets.all(|net| (net.0 as usize) < circuit.nets.len())
}

/// Whether a channel net is in the part or has a given value.
fn is_end(circuit: &Circuit, part: &Part, net: Net) -> bool
    requires { Rises part.now }
    ensures { IsTrue result ↔ (Among part.now.nets net ⊎ IsGiven circuit.now net.0) }
{
    place(part, true, net).is_some() || is_given(circuit, net)
}

/// Whether a number is that of a device whose channel nets are in the part or have given values.
fn is_device(circuit: &Circuit, part: &Part, dev: Dev) -> bool
    requires { Rises part.now }
    ensures { IsTrue result ↔ IsPartDevice circuit.now part.now dev }
{
    match circuit.devices.get(dev.0 as usize) {
        Some(device) => {
            is_end(circuit, part, device.left) && is_end(circuit, part, device.right)
        }
        None => false,
    }
}

/// Whether the devices of a part are devices of the circuit whose channel nets are in it or have given values.
fn has_devices(circuit: &Circuit, part: &Part) -> bool
    requires { Rises part.now }
    ensures { IsTrue result ↔ All (IsPartDevice circuit.now part.now) part.now.devices }
{
    let mut devices = part.devices.as_slice().iter();
    devices.all(|dev| is_device(circuit, part, *dev))
}

/// Whether a part is one of the circuit, as `solve_part` asks, and its nets rise by number.
pub fn is_part(circuit: &Circuit, part: &Part) -> bool
    ensures { IsTrue result ↔ (IsPart circuit.now part.now × Rises part.now) }
{
    if !rises(part) {
        return false;
    }
    if !has_nets(circuit, part) {
        return false;
    }
    has_devices(circuit, part)
}

/// Whether a span is live in a store.
fn is_span(store: &Store, span: Span) -> bool
    ensures { IsTrue result ↔ IsSpan store.now span }
{
    let words = store.mark().words as u64;
    store.own_words() <= span.start && span.start as u64 + span.len as u64 <= words
}

/// Whether each word of a span is a live handle.
fn is_filled(store: &Store, span: Span) -> bool
    requires { IsSpan store.now span }
    ensures { IsTrue result ↔ IsFilled store.now span }
{
    let count = store.node_count();
    for at in 0..span.len {
        if store.read(span, at) >= count {
            return false;
        }
    }
    true
}

/// Whether two spans have no word in common.
fn are_apart(a: Span, b: Span) -> bool
    ensures { IsTrue result ↔ IsApart a b }
{
    a.start as u64 + a.len as u64 <= b.start as u64
        || b.start as u64 + b.len as u64 <= a.start as u64
}

/// Whether a span has live handles, apart from `out`.
fn has_handles(store: &Store, span: Span, out: Span) -> bool
    ensures { IsTrue result ↔ (IsSpan store.now span × (IsFilled store.now span × IsApart span out)) }
{
    if !is_span(store, span) {
        return false;
    }
    is_filled(store, span) && are_apart(span, out)
}

/// Whether there are at most so many output pins of whole instances.
fn has_room(circuit: &Circuit, room: usize) -> bool
    ensures { IsTrue result ↔ (length (pins_of circuit.now) ≤ room) }
{
    let mut left = room;
    for whole in circuit.wholes.as_slice() {
        let count = whole.outputs.len();
        if count > left {
            return false;
        }
        left -= count;
    }
    true
}

/// Whether there are so many handles: of the gates one for each net of the circuit, and of the roots one for each output of a whole
/// instance too.
fn has_lengths(circuit: &Circuit, gates: usize, roots: usize) -> bool
    ensures { IsTrue result ↔ ((gates ≡ length circuit.now.nets) × (length circuit.now.nets + length (pins_of circuit.now) ≤ roots)) }
{
    let nets = circuit.nets.len();
    if gates != nets || roots < nets {
        return false;
    }
    has_room(circuit, roots - nets)
}

/// Whether so many words are those of so many nets, by the source level.
fn is_words(source: u8, nets: usize, len: u32) -> bool
    ensures { IsTrue result ↔ (len ≡ net_words source * nets) }
{
    let words = net_words(source);
    if len % words != 0 {
        return false;
    }
    (len / words) as usize == nets
}

/// Whether a span has the words of each net of the part, by the source level.
fn has_words(store: &Store, source: u8, part: &Part, out: Span) -> bool
    ensures { IsTrue result ↔ (IsSpan store.now out × (out.len ≡ net_words source * length part.now.nets)) }
{
    is_span(store, out) && is_words(source, part.nets.len(), out.len)
}

/// Whether the spans of the gates, of the roots and of the words of a part are as `solve_part` asks.
pub fn are_spans(
    store: &Store,
    circuit: &Circuit,
    part: &Part,
    gates: Span,
    roots: Span,
    out: Span,
) -> bool
    ensures { IsTrue result ↔ HasRootSpans circuit.now part.now gates roots (circuit_words circuit.now out) store.now }
{
    has_words(store, circuit.source_level(), part, out)
        && has_handles(store, gates, out)
        && has_handles(store, roots, out)
        && has_lengths(circuit, gates.len as usize, roots.len as usize)
}
