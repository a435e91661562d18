//! The parts from which arcs that count for ranks lead to each part, at the least nets of the parts.

ghost use Rattle.std.specs.Prelude.{◌≡◌, ◌<◌, length, IfOk, OnOk};
ghost use Rattle.channel_parts.specs.Labels.{AreBelow};
ghost use Rattle.channel_parts.specs.NetGraphs.{ArcsBelow};
ghost use Rattle.channel_parts.specs.Sources.{AreSources, IsBetween, IsFromTo, IsLinkBetween, IsWholeBetween, device_source};
ghost use Rattle.graphs.specs.Graphs.{AreInside};
ghost use Rattle.known_nets.specs.Placed.{Adds};
ghost use Rattle.known_nets.specs.Wired.{IsWired};
ghost use Rattle.vrt_model.specs.Circuits.{IsWhole};

use crate::grouping::{device_owner, net_owner};
use crate::links::{counts, link_target};
use crate::ranking::has_unknown_gate;
use known_nets::{lead, no_groups};
use std::alloc::Global;
use vrt_model::{Circuit, Device, Link, NoMemory, Phase, Seq, Whole};

/// The least net of the part of the gate of a device, where the gate is plain and not known.
fn device_source(
    circuit: &Circuit,
    known: &[Option<bool>],
    least: &[usize],
    device: &Device,
) -> Option<usize>
    requires { device.now.gate.0 < length least.now }
    ensures { result ≡ device_source circuit.now known.now least.now device.now }
{
    if has_unknown_gate(known, device) {
        net_owner(circuit, least, device.gate.0 as usize)
    } else {
        None
    }
}

/// Adds the arc from one part to another, where both are there.
fn join(
    sources: &mut Vec<Seq<u32>>,
    source: Option<usize>,
    owner: Option<usize>,
) -> Result<(), NoMemory>
    ensures { OnOk result (Adds (IsFromTo source owner) sources.old.items sources.new.items) }
{
    let Some(from) = source else {
        return Ok(());
    };
    let Some(to) = owner else {
        return Ok(());
    };
    lead(sources, from, to)
}

/// Adds the part of the gate of a device to the sources of the part of the device.
fn join_device(
    circuit: &Circuit,
    known: &[Option<bool>],
    least: &[usize],
    device: &Device,
    sources: &mut Vec<Seq<u32>>,
) -> Result<(), NoMemory>
    requires gate { device.now.gate.0 < length least.now }
    requires left { device.now.left.0 < length least.now }
    requires right { device.now.right.0 < length least.now }
    ensures { OnOk result (Adds (IsBetween circuit.now known.now least.now device.now) sources.old.items sources.new.items) }
{
    let source = device_source(circuit, known, least, device);
    let owner = device_owner(circuit, known, least, true, device);
    join(sources, source, owner)
}

/// Adds the parts of the gates of all devices.
fn join_devices(
    circuit: &Circuit,
    known: &[Option<bool>],
    least: &[usize],
    sources: &mut Vec<Seq<u32>>,
) -> Result<(), NoMemory>
    requires wired { IsWired circuit.now }
    requires nets { length least.now ≡ length circuit.now.nets }
    ensures { OnOk result (Adds (ArcsBelow circuit.now.devices (IsBetween circuit.now known.now least.now) (length circuit.now.devices)) sources.old.items sources.new.items) }
{
    for device in circuit.devices.as_slice() {
        join_device(circuit, known, least, device, sources)?;
    }
    Ok(())
}

/// Adds the part of the net of a link that counts in the phase to the sources of the part to which it leads.
fn join_link(
    circuit: &Circuit,
    phase: &Phase,
    known: &[Option<bool>],
    least: &[usize],
    whole: &Whole,
    link: &Link,
    sources: &mut Vec<Seq<u32>>,
) -> Result<(), NoMemory>
    requires whole { IsWhole circuit.now whole.now }
    requires nets { length least.now ≡ length circuit.now.nets }
    requires from { link.now.from.0 < length least.now }
    ensures { OnOk result (Adds (IsLinkBetween circuit.now phase.now known.now least.now whole.now link.now) sources.old.items sources.new.items) }
{
    if !counts(phase, known, link) {
        return Ok(());
    }
    let source = net_owner(circuit, least, link.from.0 as usize);
    let owner = link_target(circuit, least, whole, link);
    join(sources, source, owner)
}

/// Adds the parts of the nets of all links of a whole instance.
fn join_links(
    circuit: &Circuit,
    phase: &Phase,
    known: &[Option<bool>],
    least: &[usize],
    whole: &Whole,
    sources: &mut Vec<Seq<u32>>,
) -> Result<(), NoMemory>
    requires whole { IsWhole circuit.now whole.now }
    requires nets { length least.now ≡ length circuit.now.nets }
    ensures { OnOk result (Adds (IsWholeBetween circuit.now phase.now known.now least.now whole.now) sources.old.items sources.new.items) }
{
    for link in whole.links.as_slice() {
        join_link(circuit, phase, known, least, whole, link, sources)?;
    }
    Ok(())
}

/// Adds those of all whole instances.
fn join_wholes(
    circuit: &Circuit,
    phase: &Phase,
    known: &[Option<bool>],
    least: &[usize],
    sources: &mut Vec<Seq<u32>>,
) -> Result<(), NoMemory>
    requires wired { IsWired circuit.now }
    requires nets { length least.now ≡ length circuit.now.nets }
    ensures { OnOk result (Adds (ArcsBelow circuit.now.wholes (IsWholeBetween circuit.now phase.now known.now least.now) (length circuit.now.wholes)) sources.old.items sources.new.items) }
{
    for whole in circuit.wholes.as_slice() {
        join_links(circuit, phase, known, least, whole, sources)?;
    }
    Ok(())
}

/// The parts from which arcs that count for ranks lead to each part in a phase.
pub(crate) fn sources_by_part(
    alloc: Global,
    circuit: &Circuit,
    phase: &Phase,
    known: &[Option<bool>],
    least: &[usize],
) -> Result<Vec<Seq<u32>>, NoMemory>
    requires wired { IsWired circuit.now }
    requires nets { length least.now ≡ length circuit.now.nets }
    requires below { AreBelow least.now }
    ensures sources { IfOk result (λ t. AreSources circuit.now phase.now known.now least.now t.items) }
    ensures inside { IfOk result (λ t. AreInside t.items) }
{
    let mut sources = no_groups(alloc, least.len())?;
    join_devices(circuit, known, least, &mut sources)?;
    join_wholes(circuit, phase, known, least, &mut sources)?;
    Ok(sources)
}
