//! The channel-connected parts of a circuit in all phases.

ghost use Rattle.std.specs.Prelude.{IfOk};
ghost use Rattle.known_nets.specs.Wired.{IsWired};
ghost use Rattle.substitute.specs.BareParts.{AllBareGive, BareGive};

use channel_parts::{PartFault, Parts, parts};
use std::alloc::Global;
use vrt_model::{Circuit, NoMemory, Phase};

/// The parts of a circuit without keepers in a phase; none where its arcs lead around.
fn bare_parts(alloc: Global, circuit: &Circuit, phase: &Phase) -> Result<Option<Parts>, NoMemory>
    requires { IsWired circuit.now }
    ensures { IfOk result (BareGive circuit.now phase.now) }
{
    match parts(alloc, circuit, phase, true) {
        Ok(bare) => Ok(Some(bare)),
        Err(PartFault::Cycle { nets: _ }) => Ok(None),
        Err(PartFault::NoMemory) => Err(NoMemory),
    }
}

/// The parts of a circuit without keepers in each phase, those of the last phase first; none where its arcs lead around in one.
pub(crate) fn all_bare_parts(
    alloc: Global,
    circuit: &Circuit,
    phases: &[Phase],
) -> Result<Option<Vec<Parts>>, NoMemory>
    requires { IsWired circuit.now }
    ensures { IfOk result (AllBareGive circuit.now phases.now) }
{
    let mut all = Vec::new(alloc);
    let mut from = phases.len();
    'phases: while from > 0 {
        from -= 1;
        let Some(bare) = bare_parts(alloc, circuit, &phases[from])? else {
            return Ok(None);
        };
        let Ok(()) = all.push(bare) else {
            return Err(NoMemory);
        };
    }
    Ok(Some(all))
}
