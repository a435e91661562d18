//! Whether what the lines give meets the conditions of the calls.

ghost use Rattle.std.specs.Prelude.{◌≡◌, ◌≢◌, ◌<◌, All, IsTrue, length, true};
ghost use Rattle.bdd_core.specs.Store.{IsSpan};
ghost use Rattle.bdd_core.specs.Words.{IsFilled};
ghost use Rattle.phase_rows.specs.Apart.{AreApart};
ghost use Rattle.vrt_model.specs.Circuits.{IsCircuit, IsNet};
ghost use Rattle.vrt_model.specs.Comparison.{cell_at};
ghost use Rattle.vrt_model.specs.Levels.{IsSourceLevel};
ghost use Rattle.vrt_model.specs.declared.circuit.FlatInstance.{FlatInstance as InstanceValue};
ghost use Rattle.vrt_model.specs.declared.circuit.Hold.{Hold as HoldValue};
ghost use Rattle.vrt_model.specs.declared.ids.Net.{Net as NetValue};

use bdd_core::Store;
use node_pool::Span;
use plain_paths::is_flat;
use vrt_model::{Circuit, Design, FlatInstance, Hold, Net, Text};

/// Whether nets have numbers below a count.
pub(crate) fn are_below(nets: &[Net], count: usize) -> bool
    ensures { IsTrue result → All (λ (net : NetValue). net.0 < count) nets.now }
{
    nets.iter().all(|net| (net.0 as usize) < count)
}

/// Whether the ports of instances are at nets of the circuit.
fn has_ports(circuit: &Circuit) -> bool
    ensures { IsTrue result → All (λ (i : InstanceValue). All (IsNet circuit.now) i.ports) circuit.now.instances }
{
    let count = circuit.nets.len();
    let mut instances = circuit.instances.as_slice().iter();
    instances.all(|instance| are_below(instance.ports.as_slice(), count))
}

/// Whether none of some holds is at a net.
fn are_elsewhere(holds: &[Hold], net: Net) -> bool
    ensures { IsTrue result → All (λ (h : HoldValue). h.net.0 ≢ net.0) holds.now }
{
    holds.iter().all(|hold| hold.net.0 != net.0)
}

/// Whether no two holds of a circuit are at one net.
fn are_apart(circuit: &Circuit) -> bool
    ensures { IsTrue result → AreApart circuit.now.holds }
{
    let mut rest = circuit.holds.as_slice();
    'holds: while let Some((hold, behind)) = rest.split_first() {
        if !are_elsewhere(behind, hold.net) {
            return false;
        }
        rest = behind;
    }
    true
}

/// Whether the level of sources is that of one of the scales.
#[tactic(auto, using(crate::proofs::CircuitLaws::source_told))]
fn has_source(circuit: &Circuit) -> bool
    ensures { IsTrue result → IsSourceLevel circuit.now.source }
{
    circuit.source == circuit.source_level()
}

/// Whether a circuit is well formed.
#[tactic(auto, using(crate::proofs::CircuitLaws::circuit_is))]
pub(crate) fn is_circuit(circuit: &Circuit) -> bool
    ensures { IsTrue result → IsCircuit circuit.now }
{
    if !has_source(circuit) {
        return false;
    }
    if circuit.nets.len() > 20000 {
        return false;
    }
    if circuit.devices.len() > 40000 {
        return false;
    }
    if circuit.instances.len() > 40000 {
        return false;
    }
    if !is_flat(circuit) {
        return false;
    }
    if !has_ports(circuit) {
        return false;
    }
    are_apart(circuit)
}

/// The ports of a cell, none where there is no such cell.
pub(crate) fn ports_of(design: &Design, cell: u32) -> &[Text]
    ensures { result.now ≡ (cell_at design.now cell).ports }
{
    match design.cells.get(cell as usize) {
        Some(cell) => cell.ports.as_slice(),
        None => &[],
    }
}

/// Whether an instance is of a cell of the netlist, with a net for each of its ports.
pub(crate) fn is_tied(design: &Design, instance: &FlatInstance) -> bool
    ensures cell { IsTrue result → instance.now.cell < length design.now.cells }
    ensures ports { IsTrue result → length instance.now.ports ≡ length (cell_at design.now instance.now.cell).ports }
{
    (instance.cell as usize) < design.cells.len()
        && instance.ports.len() == ports_of(design, instance.cell).len()
}

/// Whether a span is live in a store.
pub(crate) fn is_live(store: &Store, span: Span) -> bool
    ensures { IsTrue result → IsSpan store.now span }
{
    let words = store.mark().words as u64;
    store.own_words() <= span.start && span.start as u64 + span.len as u64 <= words
}

/// Whether each word of a span is a live handle.
pub(crate) fn are_live(store: &Store, span: Span) -> bool
    requires { IsSpan store.now span }
    ensures { result ≡ true → IsFilled store.now span }
{
    let count = store.node_count();
    for s in 0..span.len {
        if store.read(span, s) >= count {
            return false;
        }
    }
    true
}
