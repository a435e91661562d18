//! The bare circuit of a phase and the kept one, where they have no whole instances.

ghost use Rattle.std.specs.Prelude.{◌≡◌, ℕ, All, false, length, IfErr, IfOk, None, Ok};
ghost use Rattle.bdd_core.specs.Diagram.{IsWithin, Valuation};
ghost use Rattle.bdd_core.specs.Store.{IsLive, function_of};
ghost use Rattle.bdd_core.specs.Words.{IsFilled, WritesTwo};
ghost use Rattle.bdd_ops.specs.Counting.{Counts, IsSpanWithin};
ghost use Rattle.channel_parts.specs.OneSolution.{AreObserved};
ghost use Rattle.channel_parts.specs.PartLists.{IsPartList};
ghost use Rattle.circuit_faults.specs.Faults.{HasFixedBits};
ghost use Rattle.circuit_faults.specs.KeptFaults.{AreKeptObserved, HasNoKeeper};
ghost use Rattle.circuit_faults.specs.KeptResults.{HasKeptSpans, KeptGives, WritesKept};
ghost use Rattle.circuit_faults.specs.Operations.{IsUsedUp, kept_operations, steps_operations};
ghost use Rattle.circuit_faults.specs.Results.{CircuitGives, HasCircuitSpans, IsClearCircuit, root_at};
ghost use Rattle.circuit_faults.specs.Steps.{AreOrderedSteps, IsReadyInstance, in_phase, phase_of};
ghost use Rattle.path_fixpoint.specs.Spending.{HasOneHold, Spends};
ghost use Rattle.vrt_model.specs.Circuits.{IsFlat};
ghost use Rattle.vrt_model.specs.Lists.{mark_at};
ghost use Rattle.vrt_model.specs.declared.rules.Phase.{Phase};

use crate::circuit::wired_fault;
use crate::kept::wired_kept;
use crate::kept_net::KeptFault;
use crate::net::CircuitFault;
use crate::phased::{CircuitSpans, PhasedCircuit};
use crate::spans::KeptSpans;
use bdd_core::{H, Spent, Store};
use blif_eval::ModelPlan;
use channel_parts::Parts;
use vrt_model::Circuit;
use whole_steps::{OutputPlace, WholeTable};

/// The first fault of the bare circuit in the care set, for circuits without whole instances: step by step, in a part net
/// by net, a fight before a float, and at an instance that a constraint of its cell is broken. `spans.roots` has the bits
/// of the given nets and of the holds, as functions. Where no fault stands anywhere, the handles of the observed nets in
/// `spans.gates` are their bits in the solution, at each valuation of the care set.
///
/// Handles from before keep their functions, and words outside `spans.gates` and `spans.out` stay as they are, also where
/// the budget is used up. `spans.out` has the words of the nets of the greatest part.
///
/// Where the handles read only the first `u` variables and no net has two holds, a part of p nets and q devices takes at
/// most (12 l + 12) p q + 16 p operations of `2 ^ u` nodes, where l is the source level, and an instance 20 for each operator and
/// name of its lines and 2 more; the handles that are written read only these variables too. `Spent` comes only where the budget is less
/// than all these with the nodes that were there, and has the budget.
pub fn circuit_fault(
    store: &mut Store,
    phased: PhasedCircuit<'_>,
    care: H,
    spans: CircuitSpans,
) -> Result<Option<CircuitFault>, Spent>
    requires circuit { IsFlat phased.circuit.now }
    requires steps { AreOrderedSteps (in_phase phased) }
    requires instances { All (IsReadyInstance (in_phase phased)) phased.circuit.now.instances }
    requires marks { length phased.observed.now ≡ length phased.circuit.now.nets }
    requires observed { AreObserved phased.circuit.now (mark_at phased.observed.now) }
    requires care { IsLive store.old care }
    requires spans { HasCircuitSpans phased.circuit.now phased.parts.now.list spans.roots spans.gates spans.out store.old }
    ensures writes { WritesTwo spans.gates spans.out store.old store.new }
    ensures live { IsFilled store.new spans.gates }
    ensures gives { IfOk result (λ found. ((v : Valuation) → HasFixedBits phased.entry.circuit.now (phase_of (in_phase phased.entry)) (root_at store.old spans.roots v)) → CircuitGives (in_phase phased.entry) care spans.roots spans.gates store.old store.new found) }
    ensures few { HasOneHold phased.entry.circuit.now → (u : ℕ) → IsWithin u (function_of store.old care) → IsSpanWithin u store.old spans.roots → Spends u (steps_operations (in_phase phased.entry)) spans.gates store.old store.new result }
    ensures spent { HasOneHold phased.entry.circuit.now → IfErr result (IsUsedUp store.old store.new) }
{
    let drivers: &[Option<OutputPlace>] = &[];
    let plans: &[ModelPlan] = &[];
    let wholes = WholeTable { drivers, plans };
    wired_fault(store, phased, wholes, care, spans)
}

/// The first fault of the kept circuit in the care set, where the bare circuit has none and its observed nets have the
/// bits of `gates`: net by net by number, at each plain net a fight, and where a net is observed, that the kept response
/// is not its bit. `kept` are the parts of a phase with the keepers, and `spans.roots` has the bits of the given nets and
/// of the holds, as functions. Where no device is a keeper, nothing is done and there is none.
///
/// Handles from before keep their functions, and words outside `spans.zeros`, `spans.ones` and `spans.out` stay as they
/// are, also where the budget is used up.
///
/// Where the handles read only the first `u` variables and no net has two holds, a part of p nets and q devices takes at
/// most (12 l + 12) p q + 12 p operations of `2 ^ u` nodes, where l is the source level, and each net at most 20. `Spent` comes only where the budget is
/// less than all these with the nodes that were there, and has the budget.
pub fn kept_fault(
    store: &mut Store,
    circuit: &Circuit,
    kept: &Parts,
    observed: &[bool],
    care: H,
    spans: KeptSpans,
) -> Result<Option<KeptFault>, Spent>
    requires circuit { IsFlat circuit.now }
    requires parts { (phase : Phase) × IsPartList circuit.now phase false kept.now }
    requires marks { length observed.now ≡ length circuit.now.nets }
    requires observed { AreKeptObserved circuit.now (mark_at observed.now) }
    requires care { IsLive store.old care }
    requires spans { HasKeptSpans circuit.now kept.now.list spans store.old }
    ensures writes { WritesKept spans store.old store.new }
    ensures gives { IfOk result (λ found. (phase : Phase) → IsPartList circuit.now phase false kept.now → ((v : Valuation) → HasFixedBits circuit.now phase (root_at store.old spans.roots v)) → IsClearCircuit circuit.now phase (mark_at observed.now) care spans.roots spans.gates store.old store.old → KeptGives circuit.now phase (mark_at observed.now) care spans.roots store.old store.new found) }
    ensures idle { HasNoKeeper circuit.now → (result ≡ Ok None) × (store.new ≡ store.old) }
    ensures few { HasOneHold circuit.now → (u : ℕ) → IsWithin u (function_of store.old care) → IsSpanWithin u store.old spans.gates → IsSpanWithin u store.old spans.roots → Counts u (kept_operations circuit.now kept.now.list) store.old store.new result }
    ensures spent { HasOneHold circuit.now → IfErr result (IsUsedUp store.old store.new) }
{
    let drivers: &[Option<OutputPlace>] = &[];
    let plans: &[ModelPlan] = &[];
    let wholes = WholeTable { drivers, plans };
    wired_kept(store, circuit, wholes, kept, observed, care, spans)
}
