//! The whole circuit of a phase, step by step.

ghost use Rattle.std.specs.Prelude.{◌≡◌, ℕ, ◌+◌, ◌*◌, ◌<◌, ◌≤◌, All, length, slice_get, IfErr, IfOk, None, Some};
ghost use Rattle.bdd_core.specs.Diagram.{IsWithin, Valuation};
ghost use Rattle.bdd_core.specs.Store.{AddsNodes, IsLive, IsSpan, function_of};
ghost use Rattle.bdd_core.specs.Words.{IsApart, IsFilled, Writes, word_at, WritesTwo};
ghost use Rattle.bdd_ops.specs.Counting.{IsSpanWithin};
ghost use Rattle.channel_parts.specs.OneSolution.{AreObserved};
ghost use Rattle.circuit_faults.specs.Faults.{HasFixedBits};
ghost use Rattle.circuit_faults.specs.Operations.{IsUsedUp, step_operations, steps_operations};
ghost use Rattle.circuit_faults.specs.Results.{CircuitGives, HasCircuitSpans, StepGives, WritesThree, first_word, output_span, root_at};
ghost use Rattle.circuit_faults.specs.Steps.{AreOrderedSteps, IsReadyInstance, IsThere, in_phase, phase_of};
ghost use Rattle.circuit_faults.specs.declared.steps.CircuitStep.TheVariants.{Part as PartStep, Instance as InstanceStep};
ghost use Rattle.known_nets.specs.KnownTables.{known_at};
ghost use Rattle.path_fixpoint.specs.Spending.{HasOneHold, Spends, solving_operations};
ghost use Rattle.path_fixpoint.specs.Strengths.{circuit_words, net_words};
ghost use Rattle.vrt_model.specs.Levels.{source_level};
ghost use Rattle.circuit_faults.specs.Scans.{PartGives, free_part};
ghost use Rattle.circuit_faults.specs.Wholes.{IsCopied, IsReadyWholes, SpendsWired, WiredGives};
ghost use Rattle.path_fixpoint.specs.Parts.{AreSoftInside, IsPart};
ghost use Rattle.vrt_model.specs.Lists.{Among, At, mark_at};
ghost use Rattle.vrt_model.specs.Networks.{HasRanges};
ghost use Rattle.vrt_model.specs.State.{OutputPin, output_pins};
ghost use Rattle.vrt_model.specs.declared.ids.Net.{Net as NetValue};
ghost use Rattle.whole_steps.specs.Tables.{AreDrivers, HasModelRoom, IsOutput};

use crate::instance::check_instance;
use crate::net::CircuitFault;
use crate::outputs::write_outputs;
use crate::phased::{CircuitSpans, PhasedCircuit, instance_at, part_at};
use crate::scan::is_seen;
use crate::solve::check_part;
use crate::steps::CircuitStep;
use crate::undriven::undriven_net;
use bdd_core::{H, Spent, Store, ZERO};
use channel_parts::Part;
use node_pool::Span;
use path_fixpoint::{NetWords, net_words};
use vrt_model::Circuit;
use whole_steps::{OutputPlace, WholeTable, free_driver};

/// The handle with which a net begins: the constant of a known net, else that of its root.
fn first_handle(known: Option<bool>, root: u32) -> u32
    ensures { result ≡ first_word known root }
{
    match known {
        Some(true) => 1,
        Some(false) => 0,
        None => root,
    }
}

/// Writes the handle with which each net begins.
fn write_first_handles(store: &mut Store, known: &[Option<bool>], roots: Span, gates: Span)
    requires roots { IsSpan store.old roots × IsFilled store.old roots }
    requires gates { IsSpan store.old gates }
    requires len { (length known.now ≡ gates.len) × (gates.len ≤ roots.len) }
    requires apart { IsApart roots gates }
    ensures writes { Writes gates store.old store.new }
    ensures rest { store.new ≡ record store.old { words = store.new.words } }
    ensures first { (n : ℕ) → n < gates.len → word_at store.new gates n ≡ first_word (known_at known.now n) (word_at store.old roots n) }
{
    store.sound();
    for n in 0..gates.len {
        let root = store.read(roots, n);
        store.write(gates, n, first_handle(known[n as usize], root));
    }
}

/// The words for a part among those for the greatest.
pub(crate) fn words_of(circuit: &Circuit, part: &Part, out: Span) -> NetWords
    requires { net_words (source_level circuit.now) * length part.now.nets ≤ out.len }
    ensures { result ≡ circuit_words circuit.now (record { start = out.start; len = net_words (source_level circuit.now) * length part.now.nets }) }
{
    let source = circuit.source_level();
    let span = Span {
        start: out.start,
        len: net_words(source) * part.nets.len() as u32,
    };
    NetWords { span, source }
}

/// The output at the first net of a part that is marked as free, if one is.
pub(crate) fn part_driver(wholes: WholeTable<'_>, part: &Part) -> Option<OutputPlace>
    ensures { result ≡ free_part wholes.entry.drivers.now part.now }
{
    match part.nets.get(0) {
        Some(net) => free_driver(wholes, *net),
        None => None,
    }
}

/// The first fault of a part whose outputs of whole instances have their bits. A net that nothing drives and that is not observed has
/// none, and its handle is that of the constant 0.
fn check_solved(
    store: &mut Store,
    phased: PhasedCircuit<'_>,
    wholes: WholeTable<'_>,
    part: &Part,
    care: H,
    spans: CircuitSpans,
) -> Result<Option<CircuitFault>, Spent>
    requires circuit { HasRanges phased.circuit.now }
    requires drivers { AreDrivers phased.circuit.now (output_pins phased.circuit.now) wholes.drivers.now }
    requires part { Among phased.parts.now.list part.now × IsPart phased.circuit.now part.now }
    requires soft { AreSoftInside phased.circuit.now part.now }
    requires observed { length phased.observed.now ≡ length phased.circuit.now.nets }
    requires care { IsLive store.old care }
    requires spans { HasCircuitSpans phased.circuit.now phased.parts.now.list spans.roots spans.gates spans.out store.old }
    requires live { IsFilled store.old spans.gates }
    ensures writes { WritesTwo spans.gates spans.out store.old store.new }
    ensures live { IsFilled store.new spans.gates }
    ensures gives { IfOk result (λ found. PartGives phased.entry.circuit.now part.now (mark_at phased.entry.observed.now) care spans.roots spans.gates store.old store.new found) }
    ensures few { HasOneHold phased.entry.circuit.now → (u : ℕ) → IsWithin u (function_of store.old care) → IsSpanWithin u store.old spans.gates → IsSpanWithin u store.old spans.roots → Spends u (solving_operations phased.entry.circuit.now part.now + 4 * length part.now.nets) spans.gates store.old store.new result }
{
    store.sound();
    if let Some(net) = undriven_net(phased.circuit, wholes, part) {
        if !is_seen(phased.observed, net) {
            store.write(spans.gates, net.0, ZERO.0);
            return Ok(None);
        }
    }
    let words = words_of(phased.circuit, part, spans.out);
    check_part(
        store,
        phased.circuit,
        part,
        phased.observed,
        care,
        spans.roots,
        spans.gates,
        words,
    )
}

/// Makes the handle of the net of a part that of the free output at it.
fn copy_output(
    store: &mut Store,
    circuit: &Circuit,
    part: &Part,
    place: OutputPlace,
    spans: CircuitSpans,
)
    requires place { (o : OutputPin) × IsOutput circuit.now (output_pins circuit.now) place o × At part.now.nets 0 o.pin.net }
    requires roots { IsSpan store.old spans.roots × IsFilled store.old spans.roots × (length circuit.now.nets + length (output_pins circuit.now) ≤ spans.roots.len) }
    requires gates { IsSpan store.old spans.gates × IsFilled store.old spans.gates × (spans.gates.len ≡ length circuit.now.nets) }
    requires net { (n : NetValue) → At part.now.nets 0 n → n.0 < length circuit.now.nets }
    ensures writes { Writes spans.gates store.old store.new }
    ensures rest { store.new ≡ record store.old { words = store.new.words } }
    ensures copied { (n : NetValue) → At part.now.nets 0 n → IsCopied circuit.now place n.0 spans.roots spans.gates store.old store.new }
    ensures within { (u : ℕ) → IsSpanWithin u store.old spans.gates → IsSpanWithin u store.old spans.roots → IsSpanWithin u store.new spans.gates }
{
    store.sound();
    let net = part.nets.as_slice()[0];
    let root = store.read(spans.roots, circuit.nets.len() as u32 + place.number as u32);
    store.write(spans.gates, net.0, root);
}

/// The first fault of the part of a number, once its outputs of whole instances have their bits.
fn check_part_step(
    store: &mut Store,
    phased: PhasedCircuit<'_>,
    wholes: WholeTable<'_>,
    number: u32,
    care: H,
    spans: CircuitSpans,
) -> Result<Option<CircuitFault>, Spent>
    requires wholes { IsReadyWholes (in_phase phased) wholes.drivers.now wholes.plans.now }
    requires room { HasModelRoom phased.circuit.now spans.out }
    requires steps { AreOrderedSteps (in_phase phased) }
    requires there { number < length phased.parts.now.list }
    requires observed { length phased.observed.now ≡ length phased.circuit.now.nets }
    requires care { IsLive store.old care }
    requires spans { HasCircuitSpans phased.circuit.now phased.parts.now.list spans.roots spans.gates spans.out store.old }
    requires live { IsFilled store.old spans.gates }
    ensures writes { WritesThree (output_span phased.entry.circuit.now spans.roots) spans.gates spans.out store.old store.new }
    ensures live { IsFilled store.new spans.gates }
    ensures roots { IsFilled store.new spans.roots }
    ensures gives { IfOk result (λ found. WiredGives wholes.entry.drivers.now (in_phase phased.entry) care spans.roots spans.gates spans.out store.old store.new (PartStep number) found) }
    ensures few { HasOneHold phased.entry.circuit.now → (u : ℕ) → IsWithin u (function_of store.old care) → IsSpanWithin u store.old spans.gates → IsSpanWithin u store.old spans.roots → SpendsWired u (step_operations (in_phase phased.entry) (PartStep number)) spans.gates spans.roots store.old store.new result }
{
    let part = part_at(phased.parts, number);
    match write_outputs(store, phased, wholes, part, spans) {
        Ok(()) => {}
        Err(spent) => return Err(spent),
    }
    match part_driver(wholes, part) {
        Some(place) => {
            copy_output(store, phased.circuit, part, place, spans);
            Ok(None)
        }
        None => check_solved(store, phased, wholes, part, care, spans),
    }
}

/// The fault of the instance of a number.
fn check_instance_step(
    store: &mut Store,
    phased: PhasedCircuit<'_>,
    at: u32,
    care: H,
    spans: CircuitSpans,
) -> Result<Option<CircuitFault>, Spent>
    requires instances { All (IsReadyInstance (in_phase phased)) phased.circuit.now.instances }
    requires there { at < length phased.circuit.now.instances }
    requires care { IsLive store.old care }
    requires spans { HasCircuitSpans phased.circuit.now phased.parts.now.list spans.roots spans.gates spans.out store.old }
    requires live { IsFilled store.old spans.gates }
    ensures writes { WritesTwo spans.gates spans.out store.old store.new }
    ensures adds { AddsNodes store.old store.new }
    ensures live { IsFilled store.new spans.gates }
    ensures gives { IfOk result (λ found. StepGives (in_phase phased.entry) care spans.roots spans.gates store.old store.new (InstanceStep at) found) }
    ensures few { HasOneHold phased.entry.circuit.now → (u : ℕ) → IsWithin u (function_of store.old care) → IsSpanWithin u store.old spans.gates → IsSpanWithin u store.old spans.roots → Spends u (step_operations (in_phase phased.entry) (InstanceStep at)) spans.gates store.old store.new result }
{
    let instance = instance_at(phased.circuit, at);
    check_instance(store, phased, at, instance, care, spans.gates)
}

/// The first fault of a step.
fn check_step(
    store: &mut Store,
    phased: PhasedCircuit<'_>,
    wholes: WholeTable<'_>,
    step: CircuitStep,
    care: H,
    spans: CircuitSpans,
) -> Result<Option<CircuitFault>, Spent>
    requires wholes { IsReadyWholes (in_phase phased) wholes.drivers.now wholes.plans.now }
    requires room { HasModelRoom phased.circuit.now spans.out }
    requires steps { AreOrderedSteps (in_phase phased) }
    requires instances { All (IsReadyInstance (in_phase phased)) phased.circuit.now.instances }
    requires there { IsThere (in_phase phased) step }
    requires observed { length phased.observed.now ≡ length phased.circuit.now.nets }
    requires care { IsLive store.old care }
    requires spans { HasCircuitSpans phased.circuit.now phased.parts.now.list spans.roots spans.gates spans.out store.old }
    requires live { IsFilled store.old spans.gates }
    ensures writes { WritesThree (output_span phased.entry.circuit.now spans.roots) spans.gates spans.out store.old store.new }
    ensures live { IsFilled store.new spans.gates }
    ensures roots { IsFilled store.new spans.roots }
    ensures gives { IfOk result (λ found. WiredGives wholes.entry.drivers.now (in_phase phased.entry) care spans.roots spans.gates spans.out store.old store.new step found) }
    ensures few { HasOneHold phased.entry.circuit.now → (u : ℕ) → IsWithin u (function_of store.old care) → IsSpanWithin u store.old spans.gates → IsSpanWithin u store.old spans.roots → SpendsWired u (step_operations (in_phase phased.entry) step) spans.gates spans.roots store.old store.new result }
{
    match step {
        CircuitStep::Part(number) => check_part_step(store, phased, wholes, number, care, spans),
        CircuitStep::Instance(at) => check_instance_step(store, phased, at, care, spans),
    }
}

/// The step at a place.
fn step_at(steps: &[CircuitStep], place: usize) -> CircuitStep
    requires { place < length steps.now }
    ensures { slice_get steps.now place ≡ Some result }
{
    steps[place]
}

/// The first fault of the bare circuit in the care set, where whole instances may stand: step by step, in a part net by net, a fight
/// before a float, and at an instance that a constraint of its cell is broken. Before a part is looked through, its outputs of whole
/// instances get the bits that the models give them, in the words of `spans.roots` behind those of the nets; a net with a free output
/// alone has no fault. `spans.roots` has the bits of the given nets and of the holds, as functions. Where no fault stands anywhere, the
/// handles of the observed nets in `spans.gates` are their bits in the solution, and those of the outputs theirs, at each valuation of
/// the care set.
///
/// Handles from before keep their functions, and words outside those of the outputs, `spans.gates` and `spans.out` stay as they are,
/// also where the budget is used up. `spans.out` has the words of the nets of the greatest part, and those of the greatest model.
///
/// Where the handles read only the first `u` variables and no net has two holds, a part of p nets and q devices with r outputs takes at
/// most (12 l + 12) p q + 16 p + 6 r operations of `2 ^ u` nodes, where l is the source level, each net with outputs 2 s more for the s
/// literals and rows of the models of their instances, and an instance 20 for each operator and name of its lines and 2 more; the handles
/// that are written read only these variables too. `Spent` comes only where the budget is less than all these with the nodes that were
/// there, and has the budget.
pub fn wired_fault(
    store: &mut Store,
    phased: PhasedCircuit<'_>,
    wholes: WholeTable<'_>,
    care: H,
    spans: CircuitSpans,
) -> Result<Option<CircuitFault>, Spent>
    requires wholes { IsReadyWholes (in_phase phased) wholes.drivers.now wholes.plans.now }
    requires room { HasModelRoom phased.circuit.now spans.out }
    requires steps { AreOrderedSteps (in_phase phased) }
    requires instances { All (IsReadyInstance (in_phase phased)) phased.circuit.now.instances }
    requires marks { length phased.observed.now ≡ length phased.circuit.now.nets }
    requires observed { AreObserved phased.circuit.now (mark_at phased.observed.now) }
    requires care { IsLive store.old care }
    requires spans { HasCircuitSpans phased.circuit.now phased.parts.now.list spans.roots spans.gates spans.out store.old }
    ensures writes { WritesThree (output_span phased.entry.circuit.now spans.roots) spans.gates spans.out store.old store.new }
    ensures live { IsFilled store.new spans.gates }
    ensures roots { IsFilled store.new spans.roots }
    ensures gives { IfOk result (λ found. ((v : Valuation) → HasFixedBits phased.entry.circuit.now (phase_of (in_phase phased.entry)) (root_at store.old spans.roots v)) → CircuitGives (in_phase phased.entry) care spans.roots spans.gates store.old store.new found) }
    ensures few { HasOneHold phased.entry.circuit.now → (u : ℕ) → IsWithin u (function_of store.old care) → IsSpanWithin u store.old spans.roots → Spends u (steps_operations (in_phase phased.entry)) spans.gates store.old store.new result }
    ensures spent { HasOneHold phased.entry.circuit.now → IfErr result (IsUsedUp store.old store.new) }
{
    store.sound();
    write_first_handles(
        store,
        phased.parts.known.as_slice(),
        spans.roots,
        spans.gates,
    );
    for place in 0..phased.steps.len() {
        let step = step_at(phased.steps, place);
        let found = match check_step(store, phased, wholes, step, care, spans) {
            Ok(found) => found,
            Err(spent) => return Err(spent),
        };
        if let Some(fault) = found {
            return Ok(Some(fault));
        }
    }
    Ok(None)
}
