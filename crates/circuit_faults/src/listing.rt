//! The steps of a circuit in a phase, in their order.

ghost use Rattle.std.specs.Prelude.{◌≡◌, ℕ, ◌+◌, All, Bool, map, sum_by, true, IfOk};
ghost use Rattle.channel_parts.specs.PartLists.{AreParts, IsPartList};
ghost use Rattle.circuit_faults.specs.Keys.{HasAllPorts, step_of_key};
ghost use Rattle.circuit_faults.specs.Operations.{circuit_operations, constraint_operations, steps_operations};
ghost use Rattle.circuit_faults.specs.Steps.{IsStepThere, in_comparison, step_of};
ghost use Rattle.circuit_faults.specs.declared.steps.CircuitStep.{CircuitStep as StepValue};
ghost use Rattle.fault_places.specs.PhaseSpots.{AreSteps};
ghost use Rattle.vrt_model.specs.Circuits.{IsNet};
ghost use Rattle.vrt_model.specs.Comparison.{Comparison, phase_at};
ghost use Rattle.vrt_model.specs.Known.{IsRanking};
ghost use Rattle.vrt_model.specs.Lists.{At};
ghost use Rattle.vrt_model.specs.Networks.{HasRanges};
ghost use Rattle.vrt_model.specs.declared.circuit.FlatInstance.{FlatInstance as InstanceValue};

use crate::ranking::net_ranks;
use crate::step_keys::{RankedCircuit, sorted_keys};
use crate::steps::CircuitStep;
use channel_parts::Parts;
use known_nets::short_number;
use std::alloc::Global;
use vrt_model::{Circuit, Design, NoMemory, Rules, Seq};

/// The step of a key.
fn step_of(key: ((usize, usize), usize)) -> Result<CircuitStep, NoMemory>
    ensures { IfOk result (λ step. step ≡ step_of_key key) }
{
    let number = short_number(key.1)?;
    if key.0.1 == 0 {
        Ok(CircuitStep::Part(number))
    } else {
        Ok(CircuitStep::Instance(number))
    }
}

/// The steps of keys, in their order.
fn steps_of(alloc: Global, keys: &[((usize, usize), usize)]) -> Result<Seq<CircuitStep>, NoMemory>
    ensures { IfOk result (λ steps. steps ≡ map step_of_key keys.now) }
{
    let mut steps = Seq::new(alloc);
    for key in keys {
        let step = step_of(*key)?;
        steps.append(step)?;
    }
    Ok(steps)
}

/// The steps in which a circuit is looked through in a phase: the parts, and the instances whose cells have constraints in
/// it, by rank, in a rank the parts by least net and behind them the instances by number. An instance has the greatest
/// rank of the nets that the lines of its cell name.
///
/// They take the operations of all parts and of these instances. Want of memory is the only refusal.
pub fn circuit_steps(
    alloc: Global,
    design: &Design,
    rules: &Rules,
    circuit: &Circuit,
    phase: u32,
    parts: &Parts,
) -> Result<Seq<CircuitStep>, NoMemory>
    requires circuit { HasRanges circuit.now }
    requires parts { IsPartList circuit.now (phase_at rules.now phase) true parts.now }
    requires ports { All (HasAllPorts design.now) circuit.now.instances }
    requires nets { All (λ (i : InstanceValue). All (IsNet circuit.now) i.ports) circuit.now.instances }
    ensures steps { IfOk result (λ steps. (k : Comparison) (rank : ℕ → ℕ) → k.design ≡ design.now → k.rules ≡ rules.now → k.circuit ≡ circuit.now → AreParts k.circuit (phase_at k.rules phase) true rank parts.now → IsRanking k.circuit (phase_at k.rules phase) rank → AreSteps k phase rank (map (step_of parts.now.list) steps)) }
    ensures work { IfOk result (λ steps. (k : Comparison) → k.design ≡ design.now → k.rules ≡ rules.now → k.circuit ≡ circuit.now → (observed : ℕ → Bool) → steps_operations (in_comparison k phase parts.now steps observed) ≡ circuit_operations k.circuit parts.now.list + sum_by (constraint_operations (in_comparison k phase parts.now steps observed)) k.circuit.instances) }
    ensures there { IfOk result (λ steps. (j : ℕ) (step : StepValue) → At steps j step → IsStepThere parts.now.list circuit.now step) }
{
    let list = parts.list.as_slice();
    let count = circuit.nets.len();
    let table = net_ranks(alloc, count, list)?;
    let ranks = table.as_slice();
    let ranked = RankedCircuit {
        design,
        rules,
        circuit,
        phase,
        ranks,
    };
    let keys = sorted_keys(alloc, ranked, list)?;
    let sorted = keys.as_slice();
    steps_of(alloc, sorted)
}
