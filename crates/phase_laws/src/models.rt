//! The assignments of the model at each list of bits, and the phase as a whole.

ghost use Rattle.std.specs.Prelude.{◌≡◌, ℕ, ◌<◌, Bool, List, false, length};
ghost use Rattle.fault_places.specs.Searches.{Case, HasCases, IsClearOf, StandsIn};
ghost use Rattle.phase_laws.specs.Models.{AreDefined, AreGiven, HasCaseAt, HasOneModel, IsAssignedAt};
ghost use Rattle.phase_terms.specs.Found.{met};
ghost use Rattle.phase_terms.specs.Plans.{IsPhasePlan, planned_spots};
ghost use Rattle.phase_terms.specs.Ready.{IsReady};
ghost use Rattle.phase_terms.specs.declared.plan.PhasePlan.{PhasePlan};
ghost use Rattle.vrt_model.specs.Assignment.{Assignment};
ghost use Rattle.vrt_model.specs.Comparison.{Comparison};
ghost use Rattle.vrt_model.specs.Constraints.{Meets};
ghost use Rattle.vrt_model.specs.Equal.{IsPhaseEqual, IsVacuous};
ghost use Rattle.vrt_model.specs.Faults.{Assigns};
ghost use Rattle.vrt_model.specs.Held.{setting_of};

/// An assignment of the model is one with the bits that its inputs and clocks are given.
pub fn assigned()
    ensures to { (k : Comparison) (phase : ℕ) (given : List Bool → ℕ → Bool) → IsReady k → AreGiven k phase given → (bits : List Bool) (g : Assignment) → Assigns k phase (setting_of k phase bits) g → IsAssignedAt k phase given bits g }
    ensures from { (k : Comparison) (phase : ℕ) (given : List Bool → ℕ → Bool) → IsReady k → AreGiven k phase given → (bits : List Bool) (g : Assignment) → IsAssignedAt k phase given bits g → Assigns k phase (setting_of k phase bits) g }
{}

/// Where there is a plan, the model has exactly one assignment at each list of bits, and each is that of a case.
pub fn one_model()
    ensures model { (k : Comparison) (phase : ℕ) (plan : PhasePlan) (given : List Bool → ℕ → Bool) → IsReady k → IsPhasePlan k phase plan → AreGiven k phase given → HasOneModel k phase }
    ensures case_at { (k : Comparison) (phase : ℕ) (plan : PhasePlan) → IsReady k → phase < length k.rules.phases → IsPhasePlan k phase plan → HasOneModel k phase → HasCaseAt k phase }
    ensures cases { (k : Comparison) (phase : ℕ) (plan : PhasePlan) → IsReady k → phase < length k.rules.phases → IsPhasePlan k phase plan → HasOneModel k phase → HasCases k phase }
{}

/// Where no fault stands at the places of a plan and each observed net has a bit, the two are equal in the phase, if some valuation
/// meets its constraints.
pub fn equal_phase()
    ensures { (k : Comparison) (phase : ℕ) (plan : PhasePlan) → IsReady k → phase < length k.rules.phases → IsPhasePlan k phase plan → HasOneModel k phase → IsClearOf (StandsIn k phase) (λ (v : Case k phase). met k phase v.bits) (planned_spots k plan) → AreDefined k phase → (bits : List Bool) × Meets k phase bits → IsPhaseEqual k phase }
{}

/// A phase whose constraints are met at no list of bits is vacuous.
pub fn vacuous_phase()
    ensures { (k : Comparison) (phase : ℕ) → ((bits : List Bool) → met k phase bits ≡ false) → IsVacuous k phase }
{}
