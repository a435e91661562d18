//! The law of the first fault.

ghost use Rattle.vrt_model.specs.Circuits.{IsFlat};
ghost use Rattle.vrt_model.specs.Comparison.{Comparison};
ghost use Rattle.vrt_model.specs.Places.{Finding, IsFirstInPhase};
ghost use Rattle.witness.specs.FirstFaults.{AreNetsObserved, IsFirstFaultShown};

/// A replay at the valuation of the first fault of a phase shows this fault: where the fault is a fight or a float, the net
/// fights or floats there, in the bare or in the kept circuit; where the net is unsettled, it shows a bit in the bare
/// circuit, and another response in the kept one. So it is of each circuit without whole instances.
#[tactic(auto, using(crate::proofs::FirstFaultLaws::first_fault_is_shown))]
pub fn first_fault_shown()
    ensures { (k : Comparison) (f : Finding) → IsFlat k.circuit → AreNetsObserved k f.phase → IsFirstInPhase k f → IsFirstFaultShown k f }
{}
