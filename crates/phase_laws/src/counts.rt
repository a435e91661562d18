//! How many operations a phase takes, and what a store has after some of them.

ghost use Rattle.std.specs.Prelude.{◌≡◌, ℕ, ◌+◌, ◌*◌, ◌^◌, ◌<◌, ◌≤◌, ◌⊎◌, [], Err, length};
ghost use Rattle.node_pool.specs.declared.region.Span.{Span as SpanValue};
ghost use Rattle.bdd_core.specs.Diagram.{IsReduced, IsWithin};
ghost use Rattle.bdd_core.specs.Store.{Diagrams, IsLive, function_of};
ghost use Rattle.bdd_core.specs.Words.{IsFilled};
ghost use Rattle.bdd_core.specs.declared.handle.H.{H as Handle};
ghost use Rattle.bdd_core.specs.declared.handle.Spent.{Spent as SpentValue};
ghost use Rattle.bdd_ops.specs.Counting.{Counts, IsCounted, IsSpanWithin};
ghost use Rattle.channel_parts.specs.declared.part.Part.{Part as PartValue};
ghost use Rattle.phase_laws.specs.Sums.{HasFewOutputs, phase_operations, work_within};
ghost use Rattle.phase_terms.specs.Found.{MaySpend};
ghost use Rattle.phase_terms.specs.Plans.{IsPhasePlan};
ghost use Rattle.phase_terms.specs.Ready.{IsReady};
ghost use Rattle.phase_terms.specs.Stores.{IsUsed};
ghost use Rattle.phase_terms.specs.declared.plan.PhasePlan.{PhasePlan};
ghost use Rattle.vrt_model.specs.Comparison.{Comparison};
ghost use Rattle.vrt_model.specs.Held.{sources_of};
ghost use Rattle.vrt_model.specs.Lists.{Among};

/// All operations of a phase are within its work, where its circuit has at most 50 nets or no whole instance, and its whole instances have
/// few outputs; so a budget that is used up lies below what the work may need, of a circuit with more nets too.
pub fn phase_work()
    ensures within { (k : Comparison) (phase : ℕ) (plan : PhasePlan) (devices : ℕ) → IsReady k → IsPhasePlan k phase plan → length k.circuit.devices ≤ devices → HasFewOutputs k.circuit devices → (length k.circuit.nets ≤ 50) ⊎ (k.circuit.wholes ≡ []) → phase_operations k phase plan ≤ work_within k devices }
    ensures passes { (k : Comparison) (phase : ℕ) (plan : PhasePlan) (devices : ℕ) → IsReady k → IsPhasePlan k phase plan → length k.circuit.devices ≤ devices → HasFewOutputs k.circuit devices → (budget : ℕ) → budget ≤ 64000000 → MaySpend k budget phase (phase_operations k phase plan) → (4 < length (sources_of k phase)) × (budget < 2 + 2 ^ length (sources_of k phase) * work_within k devices) }
{}

/// Each part of a plan has at most as many nets as the circuit.
pub fn part_room()
    ensures bare { (k : Comparison) (phase : ℕ) (plan : PhasePlan) → IsReady k → IsPhasePlan k phase plan → (part : PartValue) → Among plan.parts.list part → length part.nets ≤ length k.circuit.nets }
    ensures kept { (k : Comparison) (phase : ℕ) (plan : PhasePlan) → IsReady k → IsPhasePlan k phase plan → (part : PartValue) → Among plan.kept.list part → length part.nets ≤ length k.circuit.nets }
{}

/// Operations add up.
pub fn used()
    ensures none { (budget u : ℕ) (d : Diagrams) → d.budget ≡ budget → length d.nodes ≡ 2 → IsUsed budget u 0 d }
    ensures more { (budget u a b : ℕ) (old new : Diagrams) → IsUsed budget u a old → IsCounted u b old new → IsUsed budget u (a + b) new }
    ensures within { (budget u a b : ℕ) (d : Diagrams) → a ≤ b → IsUsed budget u a d → IsUsed budget u b d }
    ensures words { (budget u a : ℕ) (old new : Diagrams) → new ≡ record old { words = new.words } → IsUsed budget u a old → IsUsed budget u a new }
{}

/// A refusal of some of the operations of a phase: it has more than four variables, more nodes than the budget has may be added by all of
/// them, and as many are there.
pub fn may_spend()
    ensures { (k : Comparison) (phase budget u a b most : ℕ) (old new : Diagrams) (e : SpentValue) → IsUsed budget u a old → u ≡ length (sources_of k phase) → 65536 ≤ budget → a + b ≤ most → Counts {A = Handle} u b old new (Err e) → MaySpend k budget phase most × (length new.nodes ≡ budget) }
{}

/// After operations on functions of the first u variables each live handle reads only these.
pub fn reads()
    ensures live { (budget u a : ℕ) (d : Diagrams) (h : Handle) → IsUsed budget u a d → IsReduced d.vars d.nodes → IsLive d h → IsWithin u (function_of d h) }
    ensures filled { (budget u a : ℕ) (d : Diagrams) (span : SpanValue) → IsUsed budget u a d → IsReduced d.vars d.nodes → IsFilled d span → IsSpanWithin u d span }
{}
