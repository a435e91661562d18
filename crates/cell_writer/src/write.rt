//! What is written of a planned cell of which nothing is refused.

ghost use Rattle.std.specs.Prelude.{◌≡◌, ◌≤◌, ℕ, filter_map};
ghost use Rattle.cell_writer.specs.Names.{input_name};
ghost use Rattle.cell_writer.specs.Writing.{IsFree, IsWriting, clocks_of, written_of};
ghost use Rattle.cell_writer.specs.Written.{WriteGives};
ghost use Rattle.vrt_model.specs.FlatBlif.{model_at};

use crate::counts::bare_counts;
use crate::refusal::WriteRefusal;
use crate::texts::functions_text;
use crate::writing::{Writing, compared_of, first_vars};
use output_functions::{Stop, output_functions};
use std::alloc::Global;
use vrt_model::Text;

/// The text of a cell of which nothing is refused, with the clocks besides its inputs and the names of its variables.
pub(crate) fn write_functions(
    alloc: Global,
    budget: u32,
    w: Writing<'_>,
    clocks: &[Text],
    variables: &[Text],
) -> Result<Text, WriteRefusal>
    requires budget { (65536 ≤ budget) × (budget ≤ 64000000) }
    requires writing { (m : ℕ) × IsWriting m w }
    requires free { IsFree w }
    requires clocks { clocks.now ≡ clocks_of w }
    requires variables { variables.now ≡ filter_map (input_name w.planned.now.flattened.model.signals) w.planned.now.flattened.pairing.ports }
    ensures { (m : ℕ) → IsWriting m w.entry → WriteGives (written_of w.entry m) w.entry.blif.now (model_at w.entry.blif.now m) budget result }
{
    let flattened = &w.planned.flattened;
    let vars = first_vars(w.planned.vars.as_slice());
    let counts = bare_counts(flattened.circuit(), flattened.model(), vars);
    let plans = w.planned.plans.as_slice();
    match output_functions(alloc, budget, w.index, compared_of(w), vars, plans, counts) {
        Ok(functions) => functions_text(
            alloc,
            &functions,
            flattened.model().outputs.as_slice(),
            w.model,
            clocks,
            variables,
        ),
        Err(Stop::Spent) => Err(WriteRefusal::Budget { nodes: budget }),
        Err(Stop::NoMemory) => Err(WriteRefusal::NoMemory),
    }
}
