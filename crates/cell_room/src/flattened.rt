//! What is compared of a cell.

ghost use Rattle.std.specs.Prelude.{◌≡◌};

use std::marker::Model;
use vrt_model::{Circuit, FlatModel, Group, Pairing, Seq};

/// The flat circuit and the flat model of a cell, how its ports and the signals of the model pair, and how its holds share bits.
pub struct Flattened {
    /// Which model it is, and which signals its ports pair with.
    pairing: Pairing,
    /// The circuit of the cell with all instances unrolled.
    circuit: Circuit,
    /// The model with all sub-models unrolled.
    model: FlatModel,
    /// The groups of the holds that share one bit.
    groups: Seq<Group>,
}

/// By hand, so that letting go of one is a call.
impl Drop for Flattened {
    fn drop(self) {
        let Flattened {
            pairing: _pairing,
            circuit: _circuit,
            model: _model,
            groups: _groups,
        } = self;
    }
}

impl Model for Flattened {
    ghost use Rattle.cell_room.specs.Flat.{Flattened as Made};

    ghost Value = { Made };

    ghost view = { λ f. record { pairing = f.pairing; circuit = f.circuit; model = f.model; groups = f.groups } };
}

impl Flattened {
    /// A cell of this circuit and this model, whose ports pair so and whose holds have these groups.
    pub(crate) fn new(
        pairing: Pairing,
        circuit: Circuit,
        model: FlatModel,
        groups: Seq<Group>,
    ) -> Flattened
        ensures pairing { result.pairing ≡ pairing }
        ensures circuit { result.circuit ≡ circuit }
        ensures model { result.model ≡ model }
        ensures groups { result.groups ≡ groups }
    {
        Flattened {
            pairing,
            circuit,
            model,
            groups,
        }
    }

    /// How the ports of the cell pair with the signals of the model.
    pub fn pairing(&self) -> &Pairing
        ensures { result.now ≡ self.entry.now.pairing }
    {
        &self.pairing
    }

    /// The circuit of the cell with all instances unrolled.
    pub fn circuit(&self) -> &Circuit
        ensures { result.now ≡ self.entry.now.circuit }
    {
        &self.circuit
    }

    /// The model with all sub-models unrolled.
    pub fn model(&self) -> &FlatModel
        ensures { result.now ≡ self.entry.now.model }
    {
        &self.model
    }

    /// The groups of the holds that share one bit.
    pub fn groups(&self) -> &Seq<Group>
        ensures { result.now ≡ self.entry.now.groups }
    {
        &self.groups
    }
}
