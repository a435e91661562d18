//! Whether a circuit settles.

ghost use Rattle.std.specs.Prelude.{◌≡◌, ℕ, All, false, length, true, IfErr, IfOk};
ghost use Rattle.bdd_core.specs.Diagram.{IsWithin, Valuation};
ghost use Rattle.bdd_core.specs.Store.{IsLive, function_of};
ghost use Rattle.bdd_core.specs.Words.{IsFilled};
ghost use Rattle.bdd_ops.specs.Counting.{IsSpanWithin};
ghost use Rattle.channel_parts.specs.PartLists.{IsPartList};
ghost use Rattle.circuit_faults.specs.Faults.{HasFixedBits};
ghost use Rattle.circuit_faults.specs.KeptFaults.{AreKeptObserved};
ghost use Rattle.circuit_faults.specs.KeptResults.{HasKeptSpans};
ghost use Rattle.circuit_faults.specs.Operations.{IsUsedUp};
ghost use Rattle.circuit_faults.specs.Results.{HasCircuitSpans, root_at};
ghost use Rattle.circuit_faults.specs.Steps.{IsReadyInstance, in_phase, part_list, phase_of};
ghost use Rattle.path_fixpoint.specs.Spending.{HasOneHold, Spends};
ghost use Rattle.setting_faults.specs.Settling.{SettleGives, WritesSettled, settling_operations};
ghost use Rattle.vrt_model.specs.Circuits.{IsFlat};
ghost use Rattle.vrt_model.specs.Lists.{mark_at};

use bdd_core::{H, Spent, Store};
use channel_parts::Parts;
use circuit_faults::{CircuitSpans, KeptSpans, PhasedCircuit, circuit_fault, kept_fault};

/// Whether a circuit without whole instances settles in the care set, where its inputs and holds have the bits of `spans.roots`: no net of the
/// bare circuit fights, no observed net floats, no net of the kept circuit fights, and each observed net keeps its bit. Its steps are its parts
/// alone, so that no constraint of an instance is asked. `kept` are its parts with the keepers.
///
/// None where it settles at each valuation of the care set, and then the handles of the observed nets in `spans.gates` are their bits in the
/// solution; else where the first fault stands, net by net.
///
/// Handles from before keep their functions, and words outside `spans.gates`, `spans.zeros`, `spans.ones` and `spans.out` stay as they are, also
/// where the budget is used up. Where the handles read only the first `u` variables and no net has two holds, it takes at most the operations of
/// all parts without and with keepers and twenty for each net; the handles that are written into `spans.gates` read only these variables too.
/// `Spent` comes only where the budget is less than all these with the nodes that were there, and has the budget.
pub fn settle(
    store: &mut Store,
    phased: PhasedCircuit<'_>,
    kept: &Parts,
    care: H,
    spans: KeptSpans,
) -> Result<Option<H>, Spent>
    requires circuit { IsFlat phased.circuit.now }
    requires parts { IsPartList phased.circuit.now (phase_of (in_phase phased)) true phased.parts.now }
    requires steps { phased.steps.now ≡ part_list (length phased.parts.now.list) }
    requires kept { IsPartList phased.circuit.now (phase_of (in_phase phased)) false kept.now }
    requires instances { All (IsReadyInstance (in_phase phased)) phased.circuit.now.instances }
    requires marks { length phased.observed.now ≡ length phased.circuit.now.nets }
    requires observed { AreKeptObserved phased.circuit.now (mark_at phased.observed.now) }
    requires care { IsLive store.old care }
    requires bare_spans { HasCircuitSpans phased.circuit.now phased.parts.now.list spans.roots spans.gates spans.out store.old }
    requires kept_spans { HasKeptSpans phased.circuit.now kept.now.list spans store.old }
    ensures writes { WritesSettled spans store.old store.new }
    ensures live { IsFilled store.new spans.gates }
    ensures gives { IfOk result (λ found. ((v : Valuation) → HasFixedBits phased.entry.circuit.now (phase_of (in_phase phased.entry)) (root_at store.old spans.roots v)) → SettleGives phased.entry.circuit.now (phase_of (in_phase phased.entry)) (mark_at phased.entry.observed.now) care spans.roots spans.gates store.old store.new found) }
    ensures few { HasOneHold phased.entry.circuit.now → (u : ℕ) → IsWithin u (function_of store.old care) → IsSpanWithin u store.old spans.roots → Spends u (settling_operations phased.entry.circuit.now phased.entry.parts.now.list kept.now.list) spans.gates store.old store.new result }
    ensures spent { HasOneHold phased.entry.circuit.now → IfErr result (IsUsedUp store.old store.new) }
{
    store.sound();
    let bare = CircuitSpans {
        roots: spans.roots,
        gates: spans.gates,
        out: spans.out,
    };
    match circuit_fault(store, phased, care, bare) {
        Ok(None) => {}
        Ok(Some(fault)) => return Ok(Some(fault.at)),
        Err(spent) => return Err(spent),
    }
    match kept_fault(store, phased.circuit, kept, phased.observed, care, spans) {
        Ok(None) => Ok(None),
        Ok(Some(fault)) => Ok(Some(fault.at)),
        Err(spent) => Err(spent),
    }
}
