//! The order in which the signals and elements of a model take their values.

ghost use Rattle.std.specs.Prelude.{◌≡◌, ◌+◌, Bool, List, Option, length, IfOk};
ghost use Rattle.blif_eval.specs.Drivers.{AreDrivers};
ghost use Rattle.blif_eval.specs.Plans.{AreOutside, PlanGives, plan_by};
ghost use Rattle.vrt_model.specs.FlatModels.{IsFlatModel};

use crate::driver_table::{Driver, drivers_of};
use crate::graph::graph_of;
use crate::learning::known_bits;
use graphs::{Order, order_of};
use std::alloc::Global;
use vrt_model::{FlatModel, NoMemory, Seq};

/// The signals and elements of a model in an order that follows what depends on what. Elements are numbered after the
/// signals.
pub struct ModelPlan {
    /// The numbers of the signals, and behind these of the elements, each once, each after those that it hangs on.
    pub steps: Seq<u32>,
    /// For each signal and each element, by its number, what gives it its bit.
    pub drivers: Seq<Driver>,
}

/// By hand, so that letting go of one is a call.
impl Drop for ModelPlan {
    fn drop(self) {
        let ModelPlan {
            steps: _steps,
            drivers: _drivers,
        } = self;
    }
}

/// Why a model has no plan: what depends on what leads around. The cycle begins with the least number on any.
#[derive(Drop)]
pub enum PlanFault {
    /// The numbers of the signals and elements on the first cycle, each of which the next hangs on.
    ModelCycle { signals: Seq<u32> },
    /// Memory could not be had.
    NoMemory,
}

/// The order of what depends on what in a model, or the first cycle.
fn planned(
    alloc: Global,
    flat: &FlatModel,
    known: &[Option<bool>],
    drivers: &[Driver],
) -> Result<Order, NoMemory>
    requires model { IsFlatModel flat.now }
    requires known { length known.now ≡ length flat.now.signals + 1 }
    requires outside { AreOutside flat.now known.now }
    requires drivers { AreDrivers flat.now drivers.now }
    ensures { IfOk result (λ o. PlanGives flat.now known.now (plan_by drivers.now o)) }
{
    let bits = known_bits(alloc, flat, known, drivers)?;
    let graph = graph_of(alloc, flat, bits.as_slice(), drivers)?;
    order_of(alloc, graph.as_slice())
}

/// The signals and elements of a model in an order that follows what depends on what, or, where that leads around, a
/// cycle through the least number on any, which is a signal.
///
/// A cover hangs on its inputs, an element on its control and on what it takes in, and the output of a latch on its last
/// element. `known` has the bit of each signal that carries a clock, and behind the signals that of the default clock. The
/// output of a cover that reads known bits alone is known too, and an element that its known control keeps shut does not
/// hang on what it would take in.
///
/// Where there is a plan, the model has exactly one assignment, for any bits of its inputs and elements that are as is
/// known. Nothing but want of memory refuses beside.
pub fn model_plan(
    alloc: Global,
    flat: &FlatModel,
    known: &Seq<Option<bool>>,
) -> Result<ModelPlan, PlanFault>
    requires model { IsFlatModel flat.now }
    requires known { length known.now ≡ length flat.now.signals + 1 }
    requires outside { AreOutside flat.now known.now }
    ensures { PlanGives flat.now known.now result }
{
    let Ok(drivers) = drivers_of(alloc, flat) else {
        return Err(PlanFault::NoMemory);
    };
    match planned(alloc, flat, known.as_slice(), drivers.as_slice()) {
        Ok(Order::Steps(steps)) => Ok(ModelPlan { steps, drivers }),
        Ok(Order::Cycle(signals)) => Err(PlanFault::ModelCycle { signals }),
        Err(_) => Err(PlanFault::NoMemory),
    }
}
