//! The circuit in a phase: its parts without keepers.

ghost use Rattle.std.specs.Prelude.{◌≡◌, ◌<◌, length};
ghost use Rattle.known_nets.specs.Wired.{IsWired};
ghost use Rattle.phase_plan.specs.Gives.{BareGives};
ghost use Rattle.phase_terms.specs.Ready.{comparison_in};
ghost use Rattle.vrt_model.specs.Comparison.{phase_at};

use crate::fault::PlanFault;
use channel_parts::{PartFault, Parts, parts};
use phase_terms::Comparison;
use std::alloc::Global;
use vrt_model::{Phase, Rules};

/// A phase by its number.
pub(crate) fn phase_of(rules: &Rules, phase: u32) -> &Phase
    requires { phase < length rules.now.phases }
    ensures { result.now ≡ phase_at rules.entry.now phase }
{
    &rules.phases.as_slice()[phase as usize]
}

/// The parts of the circuit without its keepers, or its first cycle.
pub(crate) fn bare_parts(
    alloc: Global,
    compared: Comparison<'_>,
    phase: u32,
) -> Result<Parts, PlanFault>
    requires wired { IsWired compared.circuit.now }
    requires phase { phase < length compared.rules.now.phases }
    ensures { BareGives (comparison_in compared.entry) phase result }
{
    let own = phase_of(compared.rules, phase);
    match parts(alloc, compared.circuit, own, true) {
        Ok(bare) => Ok(bare),
        Err(PartFault::Cycle { nets }) => Err(PlanFault::Cycle { nets }),
        Err(PartFault::NoMemory) => Err(PlanFault::NoMemory),
    }
}
