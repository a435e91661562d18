//! Which output ports are alone inside their cell.

ghost use Rattle.std.specs.Prelude.{◌≡◌, ◌<◌, All, IfOk, length, replicate, true};
ghost use Rattle.known_nets.specs.Wired.{IsWired};
ghost use Rattle.port_drives.specs.Ports.{AreLonePorts};
ghost use Rattle.vrt_model.specs.declared.ids.Net.{Net as NetValue};

use lone_outputs::{keep_lone, lone_outputs};
use phase_terms::PhasePlan;
use std::alloc::Global;
use vrt_model::{Circuit, Net, NoMemory};

/// A mark for each of so many ports.
fn all_marks(alloc: Global, count: usize) -> Result<Vec<bool>, NoMemory>
    ensures { IfOk result (λ marks. marks.items ≡ replicate count true) }
{
    match vec![in alloc; true; count] {
        Ok(marks) => Ok(marks),
        Err(_) => Err(NoMemory),
    }
}

/// For each output port of a cell whether in every phase its net is not known, and that of no other is in its part of the kept
/// circuit. `outputs` are the nets of the ports, and `plans` what was made of each phase, of which the known nets are read.
pub fn lone_ports(
    alloc: Global,
    circuit: &Circuit,
    plans: &[PhasePlan],
    outputs: &[Net],
) -> Result<Vec<bool>, NoMemory>
    requires wired { IsWired circuit.now }
    requires outputs { All (λ (n : NetValue). n.0 < length circuit.now.nets) outputs.now }
    ensures { IfOk result (λ lone. AreLonePorts circuit.now plans.now outputs.now (length plans.now) lone.items) }
{
    let mut all = all_marks(alloc, outputs.len())?;
    for plan in plans {
        let known = plan.parts.known.as_slice();
        let lone = lone_outputs(alloc, circuit, known, outputs)?;
        keep_lone(&mut all, lone.as_slice());
    }
    Ok(all)
}
