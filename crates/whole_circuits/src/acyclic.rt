//! Whether the arcs of a circuit lead around.

ghost use Rattle.std.specs.Prelude.{◌≡◌, ◌<◌, ◌↔◌, IfOk, true};
ghost use Rattle.known_nets.specs.Wired.{IsWired};
ghost use Rattle.whole_circuits.specs.Acyclic.{AreAcyclic};
ghost use Rattle.vrt_model.specs.Known.{HasArc};
ghost use Rattle.vrt_model.specs.Unsupported.{IsAcyclic};

use channel_parts::{PartFault, parts};
use std::alloc::Global;
use vrt_model::{Circuit, NoMemory, Phase};

/// Whether the arcs of a circuit have no cycle in a phase.
fn is_acyclic(alloc: Global, circuit: &Circuit, phase: &Phase) -> Result<bool, NoMemory>
    requires { IsWired circuit.now }
    ensures { IfOk result (λ free. (free ≡ true) ↔ IsAcyclic (HasArc circuit.now phase.now)) }
{
    match parts(alloc, circuit, phase, true) {
        Ok(_) => Ok(true),
        Err(PartFault::Cycle { nets: _ }) => Ok(false),
        Err(PartFault::NoMemory) => Err(NoMemory),
    }
}

/// Whether the arcs of a circuit, in which whole instances may stand, have no cycle in any of some phases.
pub fn are_acyclic(alloc: Global, circuit: &Circuit, phases: &[Phase]) -> Result<bool, NoMemory>
    requires { IsWired circuit.now }
    ensures { IfOk result (λ free. (free ≡ true) ↔ AreAcyclic circuit.now phases.now) }
{
    for at in 0..phases.len() {
        let free = is_acyclic(alloc, circuit, &phases[at])?;
        if !free {
            return Ok(false);
        }
    }
    Ok(true)
}
