//! The orders of the models of whole instances.

ghost use Rattle.vrt_model.specs.Networks.{HasRanges};
ghost use Rattle.whole_steps.specs.Tables.{OrdersGive};

use crate::plan::whole_plan;
use blif_eval::{ModelPlan, PlanFault};
use std::alloc::Global;
use vrt_model::{Circuit, Seq};

/// For each whole instance of a circuit an order in which the signals of its model take their bits; or, where a model leads around, the
/// first cycle of it. Nothing but want of memory refuses beside.
pub fn model_orders(alloc: Global, circuit: &Circuit) -> Result<Seq<ModelPlan>, PlanFault>
    requires circuit { HasRanges circuit.now }
    ensures { OrdersGive circuit.now.wholes result }
{
    let mut orders = Seq::new(alloc);
    let wholes = circuit.wholes.as_slice();
    for number in 0..wholes.len() {
        let order = whole_plan(alloc, &wholes[number].model)?;
        let Ok(()) = orders.append(order) else {
            return Err(PlanFault::NoMemory);
        };
    }
    Ok(orders)
}
