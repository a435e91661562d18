//! The places of a phase at which a fault may stand, and the first fault.

ghost use Rattle.std.specs.Prelude.{ℕ, ◌<◌, Bool, List, length};
ghost use Rattle.circuit_faults.specs.KeptFaults.{AreKeptObserved};
ghost use Rattle.fault_places.specs.Searches.{AreSpots, Case, IsFoundIn, IsLeastOf, Spot, StandsIn, finding_at};
ghost use Rattle.phase_laws.specs.Models.{HasOneModel};
ghost use Rattle.phase_terms.specs.Found.{met};
ghost use Rattle.phase_terms.specs.Plans.{IsPhasePlan, planned_spots};
ghost use Rattle.phase_terms.specs.Ready.{IsReady};
ghost use Rattle.phase_terms.specs.declared.plan.PhasePlan.{PhasePlan};
ghost use Rattle.vrt_model.specs.Comparison.{Comparison, is_observed};
ghost use Rattle.vrt_model.specs.Places.{IsFirstInPhase};

/// The gates of all devices are observed, those of keepers too, and nets of the circuit alone are.
pub fn observed_nets()
    ensures { (k : Comparison) (phase : ℕ) → IsReady k → AreKeptObserved k.circuit (is_observed k phase) }
{}

/// The places of a plan are all places of the phase at which a fault may stand, in their order.
pub fn planned_order()
    ensures { (k : Comparison) (phase : ℕ) (plan : PhasePlan) → IsReady k → phase < length k.rules.phases → IsPhasePlan k phase plan → (rank : ℕ → ℕ) × (least : ℕ → ℕ) × AreSpots k phase rank least (planned_spots k plan) }
{}

/// What is found first at the places of a plan where the constraints are met is, at the least valuation at which its function is 1,
/// the first finding of the phase.
pub fn first_fault()
    ensures { (k : Comparison) (phase : ℕ) (plan : PhasePlan) → IsReady k → phase < length k.rules.phases → IsPhasePlan k phase plan → HasOneModel k phase → (f : List Bool → Bool) (x : Spot) → IsFoundIn (StandsIn k phase) (λ (v : Case k phase). met k phase v.bits) (λ (v : Case k phase). f v.bits) (planned_spots k plan) x → (bits : List Bool) → IsLeastOf k phase f bits → IsFirstInPhase k (finding_at phase x bits) }
{}
