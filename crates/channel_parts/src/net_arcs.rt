//! A graph of nets and parts: an arc leads to each plain net from its part, to each part from the gates of its devices that
//! are not known, and to the part of an output of a whole instance from the nets that are linked to it. It has as many
//! numbers as there are nets, twice, and at most an arc for each net, each device and each link.

ghost use Rattle.std.specs.Prelude.{◌≡◌, ◌+◌, ◌<◌, length, IfOk, OnOk};
ghost use Rattle.channel_parts.specs.NetGraphs.{IsDeviceArc, IsDeviceArcBelow, IsLinkArc, IsNetArcBelow, IsNetGraph, IsOneNetArc, IsWholeArc, IsWholeArcBelow};
ghost use Rattle.known_nets.specs.Placed.{Adds};
ghost use Rattle.known_nets.specs.Wired.{IsWired};
ghost use Rattle.vrt_model.specs.Circuits.{IsWhole};

use crate::grouping::device_owner;
use crate::links::{link_target, stands};
use crate::ranking::has_unknown_gate;
use known_nets::{is_plain, lead, no_groups};
use std::alloc::Global;
use vrt_model::{Circuit, Device, Link, NoMemory, Phase, Seq, Whole};

/// The number of a part in the graph of nets and parts, behind those of the nets. Only want of memory refuses.
pub fn part_number(least: &[usize], part: usize) -> Result<usize, NoMemory>
    ensures { IfOk result (λ n. n ≡ length least.now + part) }
{
    match least.len().checked_add(part) {
        Some(number) => Ok(number),
        None => Err(NoMemory),
    }
}

/// Adds the arc to a net from its part, if the net is plain.
fn lead_net(
    circuit: &Circuit,
    least: &[usize],
    net: usize,
    graph: &mut Vec<Seq<u32>>,
) -> Result<(), NoMemory>
    requires { net < length least.now }
    ensures { OnOk result (Adds (IsOneNetArc circuit.now least.now net) graph.old.items graph.new.items) }
{
    if !is_plain(circuit, net) {
        return Ok(());
    }
    let from = part_number(least, least[net])?;
    lead(graph, from, net)?;
    Ok(())
}

/// Adds the arcs to the plain nets from their parts.
fn lead_nets(circuit: &Circuit, least: &[usize], graph: &mut Vec<Seq<u32>>) -> Result<(), NoMemory>
    ensures { OnOk result (Adds (IsNetArcBelow circuit.now least.now (length least.now)) graph.old.items graph.new.items) }
{
    for net in 0..least.len() {
        lead_net(circuit, least, net, graph)?;
    }
    Ok(())
}

/// Adds the arc to the part of a device from its gate, where that is not known.
fn lead_device(
    circuit: &Circuit,
    known: &[Option<bool>],
    least: &[usize],
    device: &Device,
    graph: &mut Vec<Seq<u32>>,
) -> Result<(), NoMemory>
    requires left { device.now.left.0 < length least.now }
    requires right { device.now.right.0 < length least.now }
    ensures { OnOk result (Adds (IsDeviceArc circuit.now known.now least.now device.now) graph.old.items graph.new.items) }
{
    if !has_unknown_gate(known, device) {
        return Ok(());
    }
    let owner = device_owner(circuit, known, least, true, device);
    match owner {
        Some(part) => {
            let to = part_number(least, part)?;
            lead(graph, device.gate.0 as usize, to)?;
            Ok(())
        }
        None => Ok(()),
    }
}

/// Adds the arcs to the parts from the gates that are not known.
fn lead_devices(
    circuit: &Circuit,
    known: &[Option<bool>],
    least: &[usize],
    graph: &mut Vec<Seq<u32>>,
) -> Result<(), NoMemory>
    requires wired { IsWired circuit.now }
    requires nets { length least.now ≡ length circuit.now.nets }
    ensures { OnOk result (Adds (IsDeviceArcBelow circuit.now known.now least.now (length circuit.now.devices)) graph.old.items graph.new.items) }
{
    for device in circuit.devices.as_slice() {
        lead_device(circuit, known, least, device, graph)?;
    }
    Ok(())
}

/// Adds the arc from the net of a link of the phase to the part to which it leads.
fn lead_link(
    circuit: &Circuit,
    phase: &Phase,
    least: &[usize],
    whole: &Whole,
    link: &Link,
    graph: &mut Vec<Seq<u32>>,
) -> Result<(), NoMemory>
    requires whole { IsWhole circuit.now whole.now }
    requires nets { length least.now ≡ length circuit.now.nets }
    ensures { OnOk result (Adds (IsLinkArc circuit.now phase.now least.now whole.now link.now) graph.old.items graph.new.items) }
{
    if !stands(phase, link) {
        return Ok(());
    }
    let owner = link_target(circuit, least, whole, link);
    match owner {
        Some(part) => {
            let to = part_number(least, part)?;
            lead(graph, link.from.0 as usize, to)?;
            Ok(())
        }
        None => Ok(()),
    }
}

/// Adds the arcs of the links of a whole instance.
fn lead_links(
    circuit: &Circuit,
    phase: &Phase,
    least: &[usize],
    whole: &Whole,
    graph: &mut Vec<Seq<u32>>,
) -> Result<(), NoMemory>
    requires whole { IsWhole circuit.now whole.now }
    requires nets { length least.now ≡ length circuit.now.nets }
    ensures { OnOk result (Adds (IsWholeArc circuit.now phase.now least.now whole.now) graph.old.items graph.new.items) }
{
    for link in whole.links.as_slice() {
        lead_link(circuit, phase, least, whole, link, graph)?;
    }
    Ok(())
}

/// Adds those of all whole instances.
fn lead_wholes(
    circuit: &Circuit,
    phase: &Phase,
    least: &[usize],
    graph: &mut Vec<Seq<u32>>,
) -> Result<(), NoMemory>
    requires wired { IsWired circuit.now }
    requires nets { length least.now ≡ length circuit.now.nets }
    ensures { OnOk result (Adds (IsWholeArcBelow circuit.now phase.now least.now (length circuit.now.wholes)) graph.old.items graph.new.items) }
{
    for whole in circuit.wholes.as_slice() {
        lead_links(circuit, phase, least, whole, graph)?;
    }
    Ok(())
}

/// The graph of the nets and the parts of the bare circuit in a phase: at each number those from which arcs lead to it, with the
/// nets from 0 and behind them the parts by their least nets. Only want of memory refuses.
pub fn net_graph(
    alloc: Global,
    circuit: &Circuit,
    phase: &Phase,
    known: &[Option<bool>],
    least: &[usize],
) -> Result<Vec<Seq<u32>>, NoMemory>
    requires wired { IsWired circuit.now }
    requires nets { length least.now ≡ length circuit.now.nets }
    ensures { IfOk result (λ t. IsNetGraph circuit.now phase.now known.now least.now t.items) }
{
    let count = part_number(least, least.len())?;
    let mut graph = no_groups(alloc, count)?;
    lead_nets(circuit, least, &mut graph)?;
    lead_devices(circuit, known, least, &mut graph)?;
    lead_wholes(circuit, phase, least, &mut graph)?;
    Ok(graph)
}
