//! The order of the model in a phase.

ghost use Rattle.std.specs.Prelude.{◌≡◌, ◌<◌, length};
ghost use Rattle.phase_plan.specs.Gives.{ModelGives};
ghost use Rattle.phase_terms.specs.Ready.{IsReady, comparison_in};
ghost use Rattle.vrt_model.specs.Unsupported.{CircuitArc, IsAcyclic};

use crate::carried::carried;
use crate::fault::PlanFault;
use blif_eval::{ModelPlan, model_plan};
use phase_terms::Comparison;
use std::alloc::Global;

/// The signals and elements of the model in an order that follows what depends on what, or the first cycle, by the bits of the
/// signals that carry clocks.
pub(crate) fn model_order(
    alloc: Global,
    compared: Comparison<'_>,
    phase: u32,
) -> Result<ModelPlan, PlanFault>
    requires ready { IsReady (comparison_in compared) }
    requires phase { phase < length compared.rules.now.phases }
    requires acyclic { IsAcyclic (CircuitArc (comparison_in compared) phase) }
    ensures { ModelGives (comparison_in compared.entry) phase result }
{
    let Ok(known) = carried(alloc, compared, phase) else {
        return Err(PlanFault::NoMemory);
    };
    match model_plan(alloc, compared.model, &known) {
        Ok(order) => Ok(order),
        Err(blif_eval::PlanFault::ModelCycle { signals }) => Err(PlanFault::ModelCycle { signals }),
        Err(blif_eval::PlanFault::NoMemory) => Err(PlanFault::NoMemory),
    }
}
