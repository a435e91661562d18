//! What is found first in a list of places.

ghost use Rattle.std.specs.Prelude.{◌≡◌, ℕ, ◌<◌, Bool, List, ◌++◌, false, length, true};
ghost use Rattle.fault_places.specs.Searches.{AreSpots, Case, HasCases, IsCare, IsClearOf, IsFoundAt, IsFoundFirst, IsFoundIn, IsLeastOf, Spot, StandsIn, finding_at};
ghost use Rattle.vrt_model.specs.Comparison.{Comparison};
ghost use Rattle.vrt_model.specs.Places.{IsFirstInPhase};
ghost use Rattle.vrt_model.specs.Variables.{is_less};

/// What is found first in the list of a phase's places, at its least valuation, is the first finding of the phase.
pub fn first_spot()
    ensures { (k : Comparison) (phase : ℕ) (rank least : ℕ → ℕ) (spots : List Spot) (x : Spot) (bits : List Bool) → AreSpots k phase rank least spots → IsFoundFirst k phase spots x bits → IsFirstInPhase k (finding_at phase x bits) }
{}

/// A fault that is found in the care set is found first at the least bits at which its function is 1, where each finding
/// is in the care set.
pub fn least_found()
    ensures { (k : Comparison) (phase : ℕ) (care f : List Bool → Bool) (spots : List Spot) (x : Spot) (bits : List Bool) → IsFoundIn (IsFoundAt k phase) care f spots x → ((y : Spot) (more : List Bool) → IsFoundAt k phase y more → care more ≡ true) → f bits ≡ true → ((more : List Bool) → IsFoundAt k phase x more → f more ≡ true → is_less more bits ≡ false) → IsFoundFirst k phase spots x bits }
{}

/// A fault that is found in the care set over all cases is found first at the least valuation at which its function is 1,
/// where there is a case at each valuation.
pub fn case_found()
    ensures { (k : Comparison) (phase : ℕ) (care f : List Bool → Bool) (spots : List Spot) (x : Spot) (bits : List Bool) → phase < length k.rules.phases → IsCare k phase care → HasCases k phase → IsFoundIn (StandsIn k phase) (λ (v : Case k phase). care v.bits) (λ (v : Case k phase). f v.bits) spots x → IsLeastOf k phase f bits → IsFoundFirst k phase spots x bits }
{}

/// Where nothing is found at the places of one list, what is found first in a second is found first in both, one behind the
/// other: of findings by the bits of the sources, and of faults by cases, which have a solution and an assignment too.
pub fn later_stage()
    ensures findings { (k : Comparison) (phase : ℕ) (care f : List Bool → Bool) (xs ys : List Spot) (x : Spot) → IsClearOf (IsFoundAt k phase) care xs → IsFoundIn (IsFoundAt k phase) care f ys x → IsFoundIn (IsFoundAt k phase) care f (xs ++ ys) x }
    ensures faults { (k : Comparison) (phase : ℕ) (care f : Case k phase → Bool) (xs ys : List Spot) (x : Spot) → IsClearOf (StandsIn k phase) care xs → IsFoundIn (StandsIn k phase) care f ys x → IsFoundIn (StandsIn k phase) care f (xs ++ ys) x }
{}

/// What is found first in one list is found first in it and a list behind it.
pub fn earlier_stage()
    ensures findings { (k : Comparison) (phase : ℕ) (care f : List Bool → Bool) (xs ys : List Spot) (x : Spot) → IsFoundIn (IsFoundAt k phase) care f xs x → IsFoundIn (IsFoundAt k phase) care f (xs ++ ys) x }
    ensures faults { (k : Comparison) (phase : ℕ) (care f : Case k phase → Bool) (xs ys : List Spot) (x : Spot) → IsFoundIn (StandsIn k phase) care f xs x → IsFoundIn (StandsIn k phase) care f (xs ++ ys) x }
{}

/// Where nothing is found in each of two lists, nothing is in both.
pub fn clear_stages()
    ensures findings { (k : Comparison) (phase : ℕ) (care : List Bool → Bool) (xs ys : List Spot) → IsClearOf (IsFoundAt k phase) care xs → IsClearOf (IsFoundAt k phase) care ys → IsClearOf (IsFoundAt k phase) care (xs ++ ys) }
    ensures faults { (k : Comparison) (phase : ℕ) (care : Case k phase → Bool) (xs ys : List Spot) → IsClearOf (StandsIn k phase) care xs → IsClearOf (StandsIn k phase) care ys → IsClearOf (StandsIn k phase) care (xs ++ ys) }
{}
