//! What the nets of a cell show at a valuation of its variables.

ghost use Rattle.mode_lines.specs.Points.{AreVariables, setting_with};
ghost use Rattle.vrt_model.specs.Circuits.{IsFlat};
ghost use Rattle.vrt_model.specs.declared.flat_model.FlatModel.{FlatModel as ModelValue};
ghost use Rattle.vrt_model.specs.declared.pairing.Pairing.{Pairing as PairingValue};
ghost use Rattle.witness.specs.ReplayAnswers.{ReplayGives};

use crate::bits::{held_bits, input_bits};
use crate::points::CellPhase;
use std::alloc::Global;
use vrt_model::Phase;
use witness::{ReplayFault, Values, replay};

/// What the nets of a cell show at a valuation of its variables in a phase: in each comparison of the cell that has these variables the
/// values stand at what the valuation gives. Where arcs lead around, there are no values, but the cycle that `parts` gives.
pub fn replay_at(
    alloc: Global,
    at: CellPhase<'_>,
    phase: &Phase,
    bits: &[bool],
) -> Result<Values, ReplayFault>
    requires { IsFlat at.circuit.now }
    ensures { (pairing : PairingValue) (model : ModelValue) → AreVariables at.entry model → ReplayGives at.entry.circuit.now phase.now (setting_with at.entry pairing model bits.now) result }
{
    let held = match held_bits(alloc, at, bits) {
        Ok(held) => held,
        Err(_) => return Err(ReplayFault::NoMemory),
    };
    let inputs = match input_bits(alloc, at, bits) {
        Ok(inputs) => inputs,
        Err(_) => return Err(ReplayFault::NoMemory),
    };
    replay(alloc, at.circuit, phase, &held, &inputs)
}
