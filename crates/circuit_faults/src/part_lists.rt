//! The steps of the parts alone.

ghost use Rattle.std.specs.Prelude.{◌≡◌, IfOk};
ghost use Rattle.circuit_faults.specs.Steps.{part_list};

use crate::steps::CircuitStep;
use std::alloc::Global;
use vrt_model::{NoMemory, Seq};

/// The steps of so many parts, in their order, for a circuit without instances.
pub fn part_steps(alloc: Global, count: u32) -> Result<Seq<CircuitStep>, NoMemory>
    ensures { IfOk result (λ steps. steps ≡ part_list count) }
{
    let mut steps = Seq::new(alloc);
    for number in 0..count {
        steps.append(CircuitStep::Part(number))?;
    }
    Ok(steps)
}
