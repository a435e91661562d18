//! The output ports of a cell, and which of them are alone inside it.

ghost use Rattle.std.specs.Prelude.{◌<◌, All, IfOk, length, map};
ghost use Rattle.cell_room.specs.Planned.{ArePhases};
ghost use Rattle.lone_outputs.specs.Lone.{AreLoneBefore, AreOutputNets};
ghost use Rattle.phase_terms.specs.Ready.{IsReady, comparison_in};
ghost use Rattle.vrt_model.specs.declared.ids.Net.{Net as NetValue};

use crate::planned::Phases;
use phase_terms::Comparison;
use port_drives::{lone_ports, output_nets};
use std::alloc::Global;
use vrt_model::{Net, NoMemory, Seq};

/// The output ports of a cell.
#[derive(Drop)]
pub(crate) struct Outputs {
    /// Their nets, in port order.
    pub(crate) nets: Seq<Net>,
    /// For each whether it is alone inside the flat circuit in every phase.
    pub(crate) lone: Vec<bool>,
}

/// The nets of the output ports of a comparison, in port order.
fn output_ports(alloc: Global, compared: Comparison<'_>) -> Result<Seq<Net>, NoMemory>
    requires { IsReady (comparison_in compared) }
    ensures nets { IfOk result (AreOutputNets (comparison_in compared.entry)) }
    ensures within { IfOk result (λ nets. All (λ (n : NetValue). n.0 < length compared.entry.circuit.now.nets) nets) }
{
    let nets = output_nets(alloc, compared.pairing)?;
    Ok(nets)
}

/// Which of its output ports are alone inside its flat circuit in each phase.
fn lone_in(alloc: Global, phases: Phases<'_>, nets: &[Net]) -> Result<Vec<bool>, NoMemory>
    requires phases { ArePhases phases }
    requires nets { All (λ (n : NetValue). n.0 < length phases.compared.circuit.now.nets) nets.now }
    ensures { IfOk result (λ lone. AreLoneBefore (comparison_in phases.entry.compared) (length phases.entry.compared.rules.now.phases) (map (λ (n : NetValue). n.0) nets.now) lone.items) }
{
    let lone = lone_ports(alloc, phases.compared.circuit, phases.plans, nets)?;
    Ok(lone)
}

/// The output ports of a cell: their nets, and which of them are alone inside its flat circuit.
pub(crate) fn outputs_of(alloc: Global, phases: Phases<'_>) -> Result<Outputs, NoMemory>
    requires phases { ArePhases phases }
    ensures nets { IfOk result (λ o. AreOutputNets (comparison_in phases.entry.compared) o.nets) }
    ensures within { IfOk result (λ o. All (λ (n : NetValue). n.0 < length phases.entry.compared.circuit.now.nets) o.nets) }
    ensures lone { IfOk result (λ o. AreLoneBefore (comparison_in phases.entry.compared) (length phases.entry.compared.rules.now.phases) (map (λ (n : NetValue). n.0) o.nets) o.lone.items) }
{
    let nets = output_ports(alloc, phases.compared)?;
    let lone = lone_in(alloc, phases, nets.as_slice())?;
    Ok(Outputs { nets, lone })
}
