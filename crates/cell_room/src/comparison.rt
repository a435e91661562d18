//! What is compared of a cell with all its instances unrolled.

ghost use Rattle.std.specs.Prelude.{◌≡◌};
ghost use Rattle.cell_room.specs.Compared.{comparison};
ghost use Rattle.phase_terms.specs.Ready.{comparison_in};
ghost use Rattle.vrt_model.specs.Circuits.{IsFlat};
ghost use Rattle.whole_steps.specs.Tables.{IsWholeTable};

use crate::flattened::Flattened;
use blif_eval::ModelPlan;
use phase_terms::Comparison;
use vrt_model::{Design, Rules};
use whole_steps::{OutputPlace, WholeTable};

/// The comparison of a flattened cell with its model, where no instance is left whole.
pub(crate) fn flat_comparison<'a>(
    design: &'a Design,
    rules: &'a Rules,
    cell: u32,
    flattened: &'a Flattened,
) -> Comparison<'a>
    requires flat { IsFlat flattened.now.circuit }
    ensures comparison { comparison_in result ≡ comparison design.entry.now rules.entry.now cell flattened.entry.now }
    ensures wholes { IsWholeTable result.circuit.now result.wholes.drivers.now result.wholes.plans.now }
{
    let drivers: &[Option<OutputPlace>] = &[];
    let plans: &[ModelPlan] = &[];
    Comparison {
        design,
        rules,
        cell,
        pairing: flattened.pairing(),
        circuit: flattened.circuit(),
        wholes: WholeTable { drivers, plans },
        model: flattened.model(),
        groups: flattened.groups(),
    }
}
