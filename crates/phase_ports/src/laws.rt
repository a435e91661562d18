//! Where the ports of a cell are.

ghost use Rattle.std.specs.Prelude.{◌≡◌};
ghost use Rattle.phase_ports.specs.Comparisons.{ArePortsWithin};
ghost use Rattle.vrt_model.specs.FlatCircuit.{flat_nets};
ghost use Rattle.vrt_model.specs.Unrolled.{Top, top_cell};
ghost use Rattle.vrt_model.specs.declared.circuit.Circuit.{Circuit as CircuitValue};

/// The ports of a cell are at nets of each circuit that has the nets of the unrolled cell, whatever else it has: of the flat
/// circuit, and of those in which some instances are left whole.
pub fn ports_within()
    ensures { (top : Top) (circuit : CircuitValue) → circuit.nets ≡ flat_nets top → ArePortsWithin top.rules (top_cell top) circuit }
{}
