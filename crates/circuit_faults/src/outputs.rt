//! The outputs of whole instances at a part: their bits, before the part is looked through.

ghost use Rattle.std.specs.Prelude.{◌≡◌, ℕ, ◌+◌, ◌-◌, ◌<◌, ◌≤◌, All, Some, length, IfOk};
ghost use Rattle.bdd_core.specs.Words.{IsFilled, WritesTwo};
ghost use Rattle.bdd_ops.specs.Counting.{IsSpanWithin};
ghost use Rattle.circuit_faults.specs.Operations.{net_operations, outputs_operations};
ghost use Rattle.circuit_faults.specs.Results.{HasCircuitSpans, output_span};
ghost use Rattle.circuit_faults.specs.Scans.{IsInside};
ghost use Rattle.circuit_faults.specs.Steps.{in_phase, phase_of};
ghost use Rattle.circuit_faults.specs.Wholes.{IsReadyWholes, OutputsGive};
ghost use Rattle.path_fixpoint.specs.Spending.{Spends};
ghost use Rattle.vrt_model.specs.Circuits.{IsNet};
ghost use Rattle.vrt_model.specs.State.{OutputPin, output_pins};
ghost use Rattle.whole_steps.specs.Evaluations.{HasEvaluated, output_operations};
ghost use Rattle.whole_steps.specs.Tables.{HasModelRoom, IsOutput};

use crate::phased::{CircuitSpans, PhasedCircuit, phase_at};
use bdd_core::{Spent, Store};
use channel_parts::Part;
use node_pool::Span;
use vrt_model::{Circuit, Net};
use whole_steps::{OutputPlace, WholeTable, driver_of, earlier_of, write_output};

/// The words of the roots behind those of the nets.
fn behind_nets(circuit: &Circuit, roots: Span) -> Span
    requires { (length circuit.now.nets ≤ roots.len) × (roots.start + roots.len < 4294967296) }
    ensures { result ≡ record { start = roots.start + length circuit.now.nets; len = roots.len - length circuit.now.nets } }
{
    let count = circuit.nets.len() as u32;
    Span {
        start: roots.start + count,
        len: roots.len - count,
    }
}

/// Writes the bit of one output. The model of its instance is not evaluated again where it is the `last` one that was.
fn write_one(
    store: &mut Store,
    phased: PhasedCircuit<'_>,
    wholes: WholeTable<'_>,
    place: OutputPlace,
    last: Option<usize>,
    spans: CircuitSpans,
) -> Result<(), Spent>
    requires wholes { IsReadyWholes (in_phase phased) wholes.drivers.now wholes.plans.now }
    requires room { HasModelRoom phased.circuit.now spans.out }
    requires place { (o : OutputPin) × IsOutput phased.circuit.now (output_pins phased.circuit.now) place o }
    requires spans { HasCircuitSpans phased.circuit.now phased.parts.now.list spans.roots spans.gates spans.out store.old }
    requires live { IsFilled store.old spans.gates }
    requires last { HasEvaluated phased.circuit.now (phase_of (in_phase phased)) last spans.gates spans.out store.old }
    ensures writes { WritesTwo (output_span phased.entry.circuit.now spans.roots) spans.out store.old store.new }
    ensures live { IsFilled store.new spans.roots }
    ensures found { IfOk result (λ _. HasEvaluated phased.entry.circuit.now (phase_of (in_phase phased.entry)) (Some place.whole) spans.gates spans.out store.new) }
    ensures gives { IfOk result (λ _. OutputsGive (in_phase phased.entry) (λ at o. at ≡ place.number) spans.roots spans.gates store.old store.new) }
    ensures few { (o : OutputPin) → IsOutput phased.entry.circuit.now (output_pins phased.entry.circuit.now) place o → (u : ℕ) → IsSpanWithin u store.old spans.gates → IsSpanWithin u store.old spans.roots → Spends u (output_operations last place.whole o.whole) spans.roots store.old store.new result }
{
    store.sound();
    let _count = store.mark();
    let phase = phase_at(phased.rules, phased.phase);
    let pins = behind_nets(phased.circuit, spans.roots);
    write_output(
        store,
        phased.circuit,
        wholes,
        phase,
        place,
        last,
        spans.gates,
        pins,
        spans.out,
    )
}

/// Writes the bits of the outputs at a net, from the last on: those of an instance follow one another, so that its model is evaluated
/// once.
fn write_net(
    store: &mut Store,
    phased: PhasedCircuit<'_>,
    wholes: WholeTable<'_>,
    net: Net,
    spans: CircuitSpans,
) -> Result<(), Spent>
    requires wholes { IsReadyWholes (in_phase phased) wholes.drivers.now wholes.plans.now }
    requires room { HasModelRoom phased.circuit.now spans.out }
    requires net { IsNet phased.circuit.now net }
    requires spans { HasCircuitSpans phased.circuit.now phased.parts.now.list spans.roots spans.gates spans.out store.old }
    requires live { IsFilled store.old spans.gates }
    ensures writes { WritesTwo (output_span phased.entry.circuit.now spans.roots) spans.out store.old store.new }
    ensures live { IsFilled store.new spans.roots }
    ensures gives { IfOk result (λ _. OutputsGive (in_phase phased.entry) (λ at o. o.pin.net.0 ≡ net.0) spans.roots spans.gates store.old store.new) }
    ensures few { (u : ℕ) → IsSpanWithin u store.old spans.gates → IsSpanWithin u store.old spans.roots → Spends u (net_operations phased.entry.circuit.now net.0) spans.roots store.old store.new result }
{
    store.sound();
    let _count = store.mark();
    let mut last: Option<usize> = None;
    let mut next = driver_of(wholes, net);
    'outputs: while let Some(place) = next {
        match write_one(store, phased, wholes, place, last, spans) {
            Ok(()) => {}
            Err(spent) => return Err(spent),
        }
        last = Some(place.whole);
        next = earlier_of(wholes, phased.circuit, place);
    }
    Ok(())
}

/// Writes the bits that the models of whole instances give their outputs at the nets of a part, at the bits of the nets before, to the
/// words of the outputs behind those of the nets.
pub(crate) fn write_outputs(
    store: &mut Store,
    phased: PhasedCircuit<'_>,
    wholes: WholeTable<'_>,
    part: &Part,
    spans: CircuitSpans,
) -> Result<(), Spent>
    requires wholes { IsReadyWholes (in_phase phased) wholes.drivers.now wholes.plans.now }
    requires room { HasModelRoom phased.circuit.now spans.out }
    requires nets { All (IsNet phased.circuit.now) part.now.nets }
    requires spans { HasCircuitSpans phased.circuit.now phased.parts.now.list spans.roots spans.gates spans.out store.old }
    requires live { IsFilled store.old spans.gates }
    ensures writes { WritesTwo (output_span phased.entry.circuit.now spans.roots) spans.out store.old store.new }
    ensures live { IsFilled store.new spans.roots }
    ensures gives { IfOk result (λ _. OutputsGive (in_phase phased.entry) (λ at o. IsInside part.now o.pin.net.0) spans.roots spans.gates store.old store.new) }
    ensures few { (u : ℕ) → IsSpanWithin u store.old spans.gates → IsSpanWithin u store.old spans.roots → Spends u (outputs_operations phased.entry.circuit.now part.now) spans.roots store.old store.new result }
{
    store.sound();
    let nets = part.nets.as_slice();
    for i in 0..nets.len() {
        match write_net(store, phased, wholes, nets[i], spans) {
            Ok(()) => {}
            Err(spent) => return Err(spent),
        }
    }
    Ok(())
}
