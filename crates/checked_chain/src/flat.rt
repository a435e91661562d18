//! The flat circuit, in which no instance is left whole.

ghost use Rattle.std.specs.Prelude.{◌≡◌, List, []};
ghost use Rattle.checked_chain.specs.NoWhole.{whole_nowhere};
ghost use Rattle.vrt_model.specs.Checked.{IsChecked, IsCircuitWith};
ghost use Rattle.vrt_model.specs.FlatCircuit.{flat_circuit_of};
ghost use Rattle.vrt_model.specs.Unrolled.{Top};
ghost use Rattle.vrt_model.specs.declared.blif.Blif.{Blif};
ghost use Rattle.vrt_model.specs.declared.whole.CellFacts.{CellFacts};

/// The flat circuit has no whole instance. It is the circuit in which none is left whole, and the checked one where
/// nothing is known of the cells below.
#[tactic(auto, using(crate::proofs::NoWhole::flat_has_no_whole))]
pub fn flat_circuits()
    ensures none { (t : Top) → (flat_circuit_of t).wholes ≡ [] }
    ensures with { (t : Top) (blif : Blif) (facts : List CellFacts) → IsCircuitWith (whole_nowhere t) blif facts (flat_circuit_of t) }
    ensures checked { (t : Top) (blif : Blif) → IsChecked (whole_nowhere t) blif [] (flat_circuit_of t) }
{}
