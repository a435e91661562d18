//! The whole instances of a checked circuit.

ghost use Rattle.checked_cells.specs.Outputs.{CheckedCircuitsAreAcyclic, CheckedCircuitsAreWired, CheckedModelsAreAcyclic, CheckedOutputsAreAllowed, CheckedWholesAreDetermined, CheckedWholesAreLogic};

/// Numbers are in range, and outputs are at plain nets.
pub fn checked_circuits_are_wired()
    ensures { CheckedCircuitsAreWired }
{}

/// Each output is at a plain net without a hold. A soft one is alone there, and no channel meets the net; one of a level meets devices of
/// at most that level and outputs of that very drive.
pub fn checked_outputs_are_allowed()
    ensures { CheckedOutputsAreAllowed }
{}

/// In each phase each whole instance is determined by the inputs that are linked to its outputs.
pub fn checked_wholes_are_determined()
    ensures { CheckedWholesAreDetermined }
{}

/// Its model has no latch and says of which clock or net each input has the bit.
pub fn checked_wholes_are_logic()
    ensures { CheckedWholesAreLogic }
{}

/// The model of a whole instance has no cycle, whatever is known of its signals.
pub fn checked_models_are_acyclic()
    ensures { CheckedModelsAreAcyclic }
{}

/// The arcs have no cycle in any phase.
pub fn checked_circuits_are_acyclic()
    ensures { CheckedCircuitsAreAcyclic }
{}
