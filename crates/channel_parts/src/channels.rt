//! The parts of all devices: those of the circuit whose gates are all at one input, so that no device is known to be off.

ghost use Rattle.std.specs.Prelude.{◌≡◌, [], map, IfOk};
ghost use Rattle.channel_parts.specs.LinkedParts.{AreLinkedParts, channel_circuit, channel_device, channel_kind, channel_nets};
ghost use Rattle.vrt_model.specs.Circuits.{IsFlat};

use crate::assembly::kept_parts;
use crate::part::Parts;
use known_nets::short_number;
use std::alloc::Global;
use vrt_model::{Circuit, Device, FlatNet, Net, NetKind, NoMemory, Phase, Seq, Text};

/// Plain nets stay plain, and all others are inputs.
fn channel_kind(kind: NetKind) -> NetKind
    ensures { result ≡ channel_kind kind }
{
    match kind {
        NetKind::Plain => NetKind::Plain,
        _ => NetKind::Input,
    }
}

/// A net without a name.
fn net_of(alloc: Global, kind: NetKind) -> FlatNet
    ensures { result ≡ record { name = []; kind = kind } }
{
    FlatNet {
        name: Text::new(alloc),
        kind,
    }
}

/// The nets, and the net of all gates.
fn channel_nets(alloc: Global, nets: &[FlatNet]) -> Result<Seq<FlatNet>, NoMemory>
    ensures { IfOk result (λ list. list ≡ channel_nets nets.now) }
{
    let mut list = Seq::new(alloc);
    for net in nets {
        list.append(net_of(alloc, channel_kind(net.kind)))?;
    }
    list.append(net_of(alloc, NetKind::Input))?;
    Ok(list)
}

/// A device with its gate at this net.
fn channel_device(alloc: Global, gate: Net, device: &Device) -> Device
    ensures { result ≡ channel_device gate.0 device.now }
{
    Device {
        name: Text::new(alloc),
        kind: device.kind,
        gate,
        left: device.left,
        right: device.right,
        level: device.level,
        keeper: device.keeper,
    }
}

/// The devices with their gates at this net.
fn channel_devices(alloc: Global, gate: Net, devices: &[Device]) -> Result<Seq<Device>, NoMemory>
    ensures { IfOk result (λ list. list ≡ map (channel_device gate.0) devices.now) }
{
    let mut list = Seq::new(alloc);
    for device in devices {
        list.append(channel_device(alloc, gate, device))?;
    }
    Ok(list)
}

/// The circuit whose gates are all at one input, with no holds.
fn channel_circuit(alloc: Global, circuit: &Circuit) -> Result<Circuit, NoMemory>
    ensures { IfOk result (λ channels. channels ≡ channel_circuit circuit.now) }
{
    let gate = Net(short_number(circuit.nets.len())?);
    let nets = channel_nets(alloc, circuit.nets.as_slice())?;
    let devices = channel_devices(alloc, gate, circuit.devices.as_slice())?;
    Ok(Circuit {
        nets,
        devices,
        holds: Seq::new(alloc),
        instances: Seq::new(alloc),
        wholes: Seq::new(alloc),
        source: circuit.source,
    })
}

/// A phase without clocks.
fn no_clocks(alloc: Global) -> Phase {
    Phase {
        line: 0,
        name: Text::new(alloc),
        bits: Seq::new(alloc),
    }
}

/// The parts of all devices, by least net.
pub(crate) fn linked_parts(alloc: Global, circuit: &Circuit) -> Result<Parts, NoMemory>
    requires { IsFlat circuit.now }
    ensures { IfOk result (λ parts. AreLinkedParts circuit.now parts.list) }
{
    let channels = channel_circuit(alloc, circuit)?;
    let phase = no_clocks(alloc);
    kept_parts(alloc, &channels, &phase)
}
