//! The checked circuit of a cell, with what was made as it was chosen.

ghost use Rattle.std.specs.Prelude.{◌≡◌};

use channel_parts::Parts;
use vrt_model::Circuit;

/// The checked circuit of a cell, where it is not the flat one.
#[derive(Drop)]
pub struct CheckedCircuit {
    /// The circuit.
    pub circuit: Circuit,
    /// Its channel-connected parts without keepers in each phase, those of the last phase first; none where they were not made as it was chosen.
    pub parts: Option<Vec<Parts>>,
}

impl CheckedCircuit {
    /// The circuit, of which nothing else is kept.
    pub fn into_circuit(self) -> Circuit
        ensures { result ≡ self.circuit }
    {
        let CheckedCircuit {
            circuit,
            parts: _parts,
        } = self;
        circuit
    }
}
