//! The flat circuit of an instance's cell.

ghost use Rattle.placed_cells.specs.Instances.{FlatCircuitShowsInside, InstanceIsPlaced};

/// The flat circuit of an instance's cell stands in a circuit around it that shows the instance: its devices are there, no other
/// device and no output pin of a whole instance is at one of its own nets, and these are nets of their own. Where its ports are
/// tied is left to what is asked of them.
pub fn instance_is_placed()
    ensures { InstanceIsPlaced }
{}

/// The flat circuit shows each place.
pub fn flat_circuit_shows_inside()
    ensures { FlatCircuitShowsInside }
{}
