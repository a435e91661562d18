//! The list of all places of a phase.

ghost use Rattle.std.specs.Prelude.{◌≡◌, ℕ, ◌<◌, Bool, List, length, true};
ghost use Rattle.fault_places.specs.PhaseSpots.{AreSites, AreSteps, IsSortedBy, IsStepBefore, Sites, Step, counted, spots_in, step_key};
ghost use Rattle.fault_places.specs.Searches.{AreSpots, IsFoundAt};
ghost use Rattle.fault_places.specs.States.{HasStates};
ghost use Rattle.vrt_model.specs.Comparison.{Comparison, is_observed, phase_at};
ghost use Rattle.vrt_model.specs.Known.{IsPlain};
ghost use Rattle.vrt_model.specs.Lists.{At};
ghost use Rattle.vrt_model.specs.Networks.{HasRanges};
ghost use Rattle.vrt_model.specs.Places.{IsOrder};
ghost use Rattle.vrt_model.specs.declared.verdict.FaultKind.TheVariants.{Float};

/// The list that is made stage by stage from the steps, the nets, the output ports and the nets of holds is sorted by where
/// its places stand, and has each place at which a fault is found.
pub fn phase_spots()
    ensures { (k : Comparison) (phase : ℕ) (rank least : ℕ → ℕ) (s : Sites) → AreSites k phase rank least s → AreSpots k phase rank least (spots_in s) }
{}

/// In a circuit that has a state for each reading, whose observed nets are in range, floats are found at plain nets alone.
pub fn floats_are_plain()
    ensures { (k : Comparison) (phase : ℕ) → HasRanges k.circuit → HasStates k.circuit (phase_at k.rules phase) → ((n : ℕ) → is_observed k phase n ≡ true → n < length k.circuit.nets) → (n : ℕ) (bits : List Bool) → IsFoundAt k phase (record { kind = Float; at = n }) bits → IsPlain k.circuit n }
{}

/// Steps that stand by rank, in a rank the parts by least net and behind them the instances by number, are sorted by their
/// keys.
pub fn step_order()
    ensures { (k : Comparison) (phase : ℕ) (rank : ℕ → ℕ) (steps : List Step) → ((i j : ℕ) (x y : Step) → At steps i x → At steps j y → i < j → IsStepBefore k phase rank x y) → IsSortedBy (step_key k phase rank) steps }
{}

/// In a circuit that has a state for each reading, whose observed nets are in range, all numbers of nets and of ports serve as
/// the lists beside the steps.
pub fn counted_sites()
    ensures { (k : Comparison) (phase : ℕ) (rank least : ℕ → ℕ) (steps : List Step) → HasRanges k.circuit → HasStates k.circuit (phase_at k.rules phase) → ((n : ℕ) → is_observed k phase n ≡ true → n < length k.circuit.nets) → IsOrder k phase rank least → AreSteps k phase rank steps → AreSites k phase rank least (counted k steps) }
{}
