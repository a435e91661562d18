//! A planned cell tested, and then written.

ghost use Rattle.std.specs.Prelude.{◌≡◌, ◌≤◌, ◌++◌, ◌∷◌, ℕ, [], None, filter_map};
ghost use Rattle.cell_writer.specs.Names.{input_name};
ghost use Rattle.cell_writer.specs.Refused.{clock_among, first_hold};
ghost use Rattle.cell_writer.specs.Writing.{IsWriting, clocks_of, written_of};
ghost use Rattle.cell_writer.specs.Written.{WriteGives};
ghost use Rattle.model_writer.specs.Refused.{interface_names};
ghost use Rattle.vrt_model.specs.Comparison.{cell_at};
ghost use Rattle.vrt_model.specs.FlatBlif.{model_at};

use crate::refusal::WriteRefusal;
use crate::refuse::refuse_name;
use crate::write::write_functions;
use crate::writing::Writing;
use model_writer::{ModelLines, refused_name};
use std::alloc::Global;
use vrt_model::{BlifModel, Text};

/// The names of a model, as they are tested.
fn names_of<'a>(model: &'a BlifModel, clocks: &'a [Text]) -> ModelLines<'a>
    ensures { interface_names result ≡ (model.entry.now.name ∷ []) ++ model.entry.now.inputs ++ clocks.entry.now ++ model.entry.now.outputs }
{
    ModelLines {
        name: &model.name,
        inputs: model.inputs.as_slice(),
        clocks,
        outputs: model.outputs.as_slice(),
        variables: &[],
        nodes: &[],
        roots: &[],
    }
}

/// The text of a cell without holds and clock ports, unless a name is refused.
pub(crate) fn write_tested(
    alloc: Global,
    budget: u32,
    w: Writing<'_>,
    clocks: &[Text],
    variables: &[Text],
) -> Result<Text, WriteRefusal>
    requires budget { (65536 ≤ budget) × (budget ≤ 64000000) }
    requires writing { (m : ℕ) × IsWriting m w }
    requires holds { first_hold w.planned.now.flattened.circuit ≡ None }
    requires ports { clock_among (cell_at w.design.now w.cell).ports w.planned.now.flattened.pairing.ports ≡ None }
    requires clocks { clocks.now ≡ clocks_of w }
    requires variables { variables.now ≡ filter_map (input_name w.planned.now.flattened.model.signals) w.planned.now.flattened.pairing.ports }
    ensures { (m : ℕ) → IsWriting m w.entry → WriteGives (written_of w.entry m) w.entry.blif.now (model_at w.entry.blif.now m) budget result }
{
    match refused_name(names_of(w.model, clocks)) {
        Some(name) => refuse_name(alloc, name),
        None => write_functions(alloc, budget, w, clocks, variables),
    }
}
