//! The words of a phase.

ghost use Rattle.std.specs.Prelude.{◌≡◌, ◌≤◌, length};
ghost use Rattle.vrt_model.specs.Circuits.{IsCircuit};
ghost use Rattle.vrt_model.specs.FlatModels.{IsFlatModel};
ghost use Rattle.vrt_model.specs.Levels.{source_level};

use phase_terms::WordCounts;
use vrt_model::{Circuit, FlatModel, Vars};

/// The words of a phase of a circuit without whole instances and a model without elements, by kind.
pub(crate) fn bare_counts(circuit: &Circuit, model: &FlatModel, vars: &Vars) -> WordCounts
    requires circuit { IsCircuit circuit.now }
    requires model { IsFlatModel model.now }
    requires few { length vars.now.sources ≤ 1000 }
    ensures { result ≡ record { nets = length circuit.now.nets; source = source_level circuit.now; pins = 0; models = 0; signals = length model.now.signals; elements = 0; variables = length vars.now.sources } }
{
    WordCounts {
        nets: circuit.nets.len() as u32,
        source: circuit.source_level(),
        pins: 0,
        models: 0,
        signals: model.signals.len() as u32,
        elements: 0,
        variables: vars.sources.len() as u32,
    }
}
