//! The arcs of a circuit without whole instances in a phase, and from where chains of them lead to a net.

ghost use Rattle.std.specs.Prelude.{◌≡◌, slice_index, IfOk};
ghost use Rattle.graphs.specs.Graphs.{AreInside};
ghost use Rattle.port_links.specs.PhaseArcs.{AreChainMarks, ArePhaseArcs, part_of};
ghost use Rattle.vrt_model.specs.Circuits.{IsFlat};
ghost use Rattle.vrt_model.specs.declared.rules.Phase.{Phase as PhaseValue};

use crate::reaching::reaching;
use channel_parts::{least_nets, net_graph, part_number};
use known_nets::{is_plain, known_nets, short_number};
use std::alloc::Global;
use vrt_model::{Circuit, NoMemory, Phase, Seq};

/// The arcs of a circuit in a phase, as a graph of its nets and its parts.
#[derive(Drop)]
pub(crate) struct PhaseArcs {
    /// The least net of the part of each plain net, by net.
    pub(crate) least: Vec<usize>,
    /// The numbers from which arcs lead to each number: those of the nets come first, and behind them, in their order, the
    /// parts by their least nets.
    pub(crate) graph: Vec<Seq<u32>>,
}

/// The arcs of a circuit in a phase.
#[tactic(auto, using(known_nets::proofs::WiredLaws::flat_wired))]
pub(crate) fn phase_arcs(
    alloc: Global,
    circuit: &Circuit,
    phase: &Phase,
) -> Result<PhaseArcs, NoMemory>
    requires { IsFlat circuit.now }
    ensures { IfOk result (λ arcs. ArePhaseArcs circuit.now phase.now arcs) }
{
    let table = known_nets(alloc, circuit, phase)?;
    let known = table.as_slice();
    let least = least_nets(alloc, circuit, known, true)?;
    let graph = net_graph(alloc, circuit, phase, known, least.as_slice())?;
    Ok(PhaseArcs { least, graph })
}

/// The least net of the part of a net, 0 past the end.
fn least_at(least: &[usize], net: usize) -> usize
    ensures { result ≡ slice_index least.now net }
{
    if net < least.len() { least[net] } else { 0 }
}

/// The number of the part of a net.
pub(crate) fn part_of(least: &[usize], net: u32) -> Result<u32, NoMemory>
    ensures { IfOk result (λ part. part ≡ part_of least.now net) }
{
    let number = part_number(least, least_at(least, net as usize))?;
    let part = short_number(number)?;
    Ok(part)
}

/// Marks at the nets from which chains of arcs lead to a net, and at the parts of which they lead from a net. Each arc is
/// gone along once at most.
pub(crate) fn chains_to(
    alloc: Global,
    circuit: &Circuit,
    arcs: &PhaseArcs,
    to: u32,
) -> Result<Vec<bool>, NoMemory>
    requires flat { IsFlat circuit.now }
    requires inside { AreInside arcs.now.graph.items }
    ensures { IfOk result (λ marks. (phase : PhaseValue) → ArePhaseArcs circuit.now phase arcs.now → AreChainMarks circuit.now phase arcs.now.least.items to marks.items) }
{
    if !is_plain(circuit, to as usize) {
        let none = Vec::new(alloc);
        return Ok(none);
    }
    let least = arcs.least.as_slice();
    let graph = arcs.graph.as_slice();
    let part = part_of(least, to)?;
    let marks = reaching(alloc, graph, part)?;
    Ok(marks)
}
