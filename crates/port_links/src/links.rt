//! The links of the ports of a cell to its outputs in a phase.

ghost use Rattle.std.specs.Prelude.{◌≡◌, ◌<◌, ◌++◌, ◌&&◌, ◌||◌, ◌∷◌, [], Some, filter_map, length, nat_lt, slice_get, IfOk, OnOk};
ghost use Rattle.std.specs.List.{cons_option};
ghost use Rattle.graphs.specs.Graphs.{AreInside, HasArcs};
ghost use Rattle.port_links.specs.Linked.{AddsLinks, AreLinks, IsLinkTo, IsTarget, is_input_linked, is_linked, is_output_linked, is_role_linked, link_from};
ghost use Rattle.port_links.specs.PhaseArcs.{ArePhaseArcs};
ghost use Rattle.vrt_model.specs.Circuits.{IsFlat};
ghost use Rattle.vrt_model.specs.FlatModels.{IsFlatModel};
ghost use Rattle.vrt_model.specs.WholeInstances.{CoverArc};
ghost use Rattle.vrt_model.specs.declared.flat_model.FlatModel.{FlatModel as ModelValue};
ghost use Rattle.vrt_model.specs.declared.rules.Phase.{Phase as PhaseValue};

use crate::arcs::{PhaseArcs, chains_to, part_of, phase_arcs};
use crate::cover_graph::cover_graph;
use crate::reaching::reaching;
use known_nets::{is_marked, is_plain};
use phase_ports::{Port, output_signal};
use std::alloc::Global;
use vrt_model::{Circuit, FlatModel, NoMemory, Phase, PortRole, Seq};

/// A port of a cell that is linked to an output of the cell.
#[derive(Clone, Copy)]
pub struct PortLink {
    /// The place of the port among the ports of the cell, from 0.
    pub from: u32,
    /// The place of the output among the ports of the cell, from 0.
    pub to: u32,
    /// Whether the port is named.
    pub named: bool,
}

/// What leads to an output of a cell.
#[derive(Drop)]
pub(crate) struct Target {
    /// Marks at the nets and the parts from which chains of arcs lead to its net.
    pub(crate) nets: Vec<bool>,
    /// Marks at the signals from which chains of covers lead to its signal.
    pub(crate) signals: Vec<bool>,
}

/// Whether both of two tests hold.
fn both(one: bool, other: bool) -> bool
    ensures { result ≡ (one && other) }
{
    one && other
}

/// Whether one of two tests holds.
pub(crate) fn either(one: bool, other: bool) -> bool
    ensures { result ≡ (one || other) }
{
    one || other
}

/// Whether a net is one of the circuit.
fn is_within(circuit: &Circuit, net: u32) -> bool
    ensures { result ≡ nat_lt net (length circuit.now.nets) }
{
    (net as usize) < circuit.nets.len()
}

/// Whether an input is linked, by its net or by its signal.
fn is_input_linked(circuit: &Circuit, target: &Target, net: u32, signal: u32) -> bool
    ensures { result ≡ is_input_linked circuit.now target.now net signal }
{
    let within = is_within(circuit, net);
    let marked = is_marked(target.nets.as_slice(), net as usize);
    let inside = both(within, marked);
    let structure = is_marked(target.signals.as_slice(), signal as usize);
    either(inside, structure)
}

/// Whether an output is linked to another, by a net of its part.
fn is_output_linked(
    circuit: &Circuit,
    least: &[usize],
    target: &Target,
    from: Port,
    to: Port,
) -> Result<bool, NoMemory>
    ensures { IfOk result (λ linked. linked ≡ is_output_linked circuit.now least.now target.now from to) }
{
    let part = part_of(least, from.net)?;
    let plain = is_plain(circuit, from.net as usize);
    let marked = is_marked(target.nets.as_slice(), part as usize);
    let inside = both(plain, marked);
    let linked = both(from.place != to.place, inside);
    Ok(linked)
}

/// Whether a port is linked to an output inside or by the structure of the model.
fn is_role_linked(
    circuit: &Circuit,
    least: &[usize],
    target: &Target,
    from: Port,
    to: Port,
) -> Result<bool, NoMemory>
    ensures { IfOk result (λ linked. linked ≡ is_role_linked circuit.now least.now target.now from to from.role) }
{
    match from.role {
        PortRole::Supply(_) => Ok(false),
        PortRole::Clock(_) => Ok(false),
        PortRole::Input(signal) => Ok(is_input_linked(circuit, target, from.net, signal)),
        PortRole::Output(_) => is_output_linked(circuit, least, target, from, to),
    }
}

/// The link of a port to an output, if it is linked.
fn link_from(
    circuit: &Circuit,
    least: &[usize],
    target: &Target,
    named: &[bool],
    to: Port,
    from: Port,
) -> Result<Option<PortLink>, NoMemory>
    ensures { IfOk result (λ link. link ≡ link_from circuit.now least.now target.now named.now to from) }
{
    let inside = is_role_linked(circuit, least, target, from, to)?;
    let name = is_marked(named, from.place as usize);
    let linked = either(inside, name);
    if !linked {
        return Ok(None);
    }
    Ok(Some(PortLink {
        from: from.place,
        to: to.place,
        named: name,
    }))
}

/// Adds a link, if there is one.
fn add_link(links: &mut Seq<PortLink>, link: Option<PortLink>) -> Result<(), NoMemory>
    ensures { OnOk result (links.new ≡ links.old ++ cons_option link []) }
{
    let Some(link) = link else {
        return Ok(());
    };
    links.append(link)
}

/// Adds the links of some ports to an output.
#[tactic(auto, using(crate::proofs::LinkLaws::pushed))]
fn add_links(
    circuit: &Circuit,
    least: &[usize],
    target: &Target,
    named: &[bool],
    to: Port,
    ports: &[Port],
    links: &mut Seq<PortLink>,
) -> Result<(), NoMemory>
    ensures { OnOk result (links.new ≡ links.old ++ filter_map (link_from circuit.now least.now target.now named.now to) ports.now) }
{
    let mut rest = ports;
    'ports: while let Some((port, behind)) = rest.split_first() {
        let link = link_from(circuit, least, target, named, to, *port)?;
        add_link(links, link)?;
        rest = behind;
    }
    Ok(())
}

/// What leads to a net and a signal.
fn target_of(
    alloc: Global,
    circuit: &Circuit,
    arcs: &PhaseArcs,
    covers: &[Seq<u32>],
    net: u32,
    signal: u32,
) -> Result<Target, NoMemory>
    requires flat { IsFlat circuit.now }
    requires inside { AreInside arcs.now.graph.items }
    requires covers { AreInside covers.now }
    ensures { IfOk result (λ target. (phase : PhaseValue) (model : ModelValue) → ArePhaseArcs circuit.now phase arcs.now → HasArcs (CoverArc model) covers.now → IsTarget circuit.now phase model arcs.now.least.items net signal target) }
{
    let nets = chains_to(alloc, circuit, arcs, net)?;
    let signals = reaching(alloc, covers, signal)?;
    Ok(Target { nets, signals })
}

/// Adds the links of all ports to one, if it is an output.
fn link_output(
    alloc: Global,
    circuit: &Circuit,
    arcs: &PhaseArcs,
    covers: &[Seq<u32>],
    named: &[bool],
    ports: &[Port],
    to: Port,
    links: &mut Seq<PortLink>,
) -> Result<(), NoMemory>
    requires flat { IsFlat circuit.now }
    requires inside { AreInside arcs.now.graph.items }
    requires covers { AreInside covers.now }
    ensures { OnOk result ((phase : PhaseValue) (model : ModelValue) → ArePhaseArcs circuit.now phase arcs.now → HasArcs (CoverArc model) covers.now → AddsLinks (IsLinkTo circuit.now phase model named.now ports.now (to ∷ [])) links.old links.new) }
{
    let least = arcs.least.as_slice();
    let output = output_signal(to.role);
    match output {
        Some(signal) => {
            let target = target_of(alloc, circuit, arcs, covers, to.net, signal)?;
            add_links(circuit, least, &target, named, to, ports, links)?;
            Ok(())
        }
        None => Ok(()),
    }
}

/// The port at a place.
fn port_at(ports: &[Port], at: usize) -> Port
    requires { at < length ports.now }
    ensures { slice_get ports.now at ≡ Some result }
{
    ports[at]
}

/// Adds the links of all ports to all outputs among them.
fn link_outputs(
    alloc: Global,
    circuit: &Circuit,
    arcs: &PhaseArcs,
    covers: &[Seq<u32>],
    named: &[bool],
    ports: &[Port],
    links: &mut Seq<PortLink>,
) -> Result<(), NoMemory>
    requires flat { IsFlat circuit.now }
    requires inside { AreInside arcs.now.graph.items }
    requires covers { AreInside covers.now }
    ensures { OnOk result ((phase : PhaseValue) (model : ModelValue) → ArePhaseArcs circuit.now phase arcs.now → HasArcs (CoverArc model) covers.now → AddsLinks (IsLinkTo circuit.now phase model named.now ports.now ports.now) links.old links.new) }
{
    for at in 0..ports.len() {
        let to = port_at(ports, at);
        link_output(alloc, circuit, arcs, covers, named, ports, to, links)?;
    }
    Ok(())
}

/// The links of the ports of a cell to its outputs in a phase, in the order of the outputs, and of one output in that of the
/// ports: an input is linked by a chain of arcs of the flat circuit or of covers of the flat model, an output by a chain
/// from a net of its part to another, and a port that is marked as named to each. Each output takes one search of the
/// circuit and one of the model. Nothing but want of memory refuses.
pub fn phase_links(
    alloc: Global,
    circuit: &Circuit,
    phase: &Phase,
    model: &FlatModel,
    named: &[bool],
    ports: &[Port],
) -> Result<Seq<PortLink>, NoMemory>
    requires flat { IsFlat circuit.now }
    requires model { IsFlatModel model.now }
    ensures { IfOk result (λ links. AreLinks circuit.now phase.now model.now named.now ports.now links) }
{
    let arcs = phase_arcs(alloc, circuit, phase)?;
    let table = cover_graph(alloc, model)?;
    let covers = table.as_slice();
    let mut links = Seq::new(alloc);
    link_outputs(alloc, circuit, &arcs, covers, named, ports, &mut links)?;
    Ok(links)
}
