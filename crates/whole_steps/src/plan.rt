//! The order in which the signals of a whole instance's model take their bits.

ghost use Rattle.std.specs.Prelude.{◌≡◌, IfOk};
ghost use Rattle.blif_eval.specs.Plans.{PlanGives};
ghost use Rattle.vrt_model.specs.FlatModels.{IsFlatModel};
ghost use Rattle.whole_steps.specs.Logic.{nothing_known};

use blif_eval::{ModelPlan, PlanFault, model_plan};
use std::alloc::Global;
use vrt_model::{FlatModel, NoMemory, Seq};

/// Nothing for each signal of a model, and nothing for the default clock.
fn unknown_bits(alloc: Global, flat: &FlatModel) -> Result<Seq<Option<bool>>, NoMemory>
    ensures { IfOk result (λ known. known ≡ nothing_known flat.now) }
{
    let mut known = Seq::new(alloc);
    for _signal in 0..flat.signals.len() {
        known.append(None)?;
    }
    known.append(None)?;
    Ok(known)
}

/// The signals of a model in an order that follows what depends on what, whatever their bits are; or, where that leads around, the
/// first cycle. Nothing but want of memory refuses beside.
pub fn whole_plan(alloc: Global, flat: &FlatModel) -> Result<ModelPlan, PlanFault>
    requires model { IsFlatModel flat.now }
    ensures { PlanGives flat.now (nothing_known flat.now) result }
{
    let Ok(known) = unknown_bits(alloc, flat) else {
        return Err(PlanFault::NoMemory);
    };
    model_plan(alloc, flat, &known)
}
