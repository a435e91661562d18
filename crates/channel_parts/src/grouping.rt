//! The nets and the devices of each part, as lists of numbers that stand at the least net of the part.

ghost use Rattle.std.specs.Prelude.{◌≡◌, ◌<◌, length, IfOk};
ghost use Rattle.channel_parts.specs.Groups.{AreGroups, device_owner, device_owner_at, net_owner};
ghost use Rattle.known_nets.specs.Wired.{IsWired};

use crate::least::{is_in, may_conduct};
use known_nets::{conduction, is_plain, no_groups, place, short_number};
use std::alloc::Global;
use vrt_model::{Circuit, Device, NoMemory, Seq};

/// The least net of the part of a plain net.
pub(crate) fn net_owner(circuit: &Circuit, least: &[usize], net: usize) -> Option<usize>
    requires { net < length least.now }
    ensures { result ≡ net_owner circuit.now least.now net }
{
    if is_plain(circuit, net) {
        Some(least[net])
    } else {
        None
    }
}

/// The least net of the part of a device of the bare or the kept circuit, if the device may conduct and meets a plain
/// net.
pub(crate) fn device_owner(
    circuit: &Circuit,
    known: &[Option<bool>],
    least: &[usize],
    bare: bool,
    device: &Device,
) -> Option<usize>
    requires left { device.now.left.0 < length least.now }
    requires right { device.now.right.0 < length least.now }
    ensures { result ≡ device_owner circuit.now known.now least.now bare device.now }
{
    let there = is_in(bare, device);
    let may = may_conduct(conduction(known, device));
    if !(there && may) {
        return None;
    }
    if is_plain(circuit, device.left.0 as usize) {
        net_owner(circuit, least, device.left.0 as usize)
    } else {
        net_owner(circuit, least, device.right.0 as usize)
    }
}

/// The nets of each part, in their order.
pub(crate) fn nets_by_part(
    alloc: Global,
    circuit: &Circuit,
    least: &[usize],
) -> Result<Vec<Seq<u32>>, NoMemory>
    ensures len { IfOk result (λ t. length t.items ≡ length least.now) }
    ensures groups { IfOk result (λ t. AreGroups (net_owner circuit.now least.now) (length least.now) t.items) }
{
    let mut groups = no_groups(alloc, least.len())?;
    for net in 0..least.len() {
        let number = short_number(net)?;
        let owner = net_owner(circuit, least, net);
        place(&mut groups, owner, number)?;
    }
    Ok(groups)
}

/// The devices of each part of the bare or the kept circuit, in their order.
pub(crate) fn devices_by_part(
    alloc: Global,
    circuit: &Circuit,
    known: &[Option<bool>],
    least: &[usize],
    bare: bool,
) -> Result<Vec<Seq<u32>>, NoMemory>
    requires wired { IsWired circuit.now }
    requires nets { length least.now ≡ length circuit.now.nets }
    ensures len { IfOk result (λ t. length t.items ≡ length least.now) }
    ensures groups { IfOk result (λ t. AreGroups (device_owner_at circuit.now known.now least.now bare) (length circuit.now.devices) t.items) }
{
    let mut groups = no_groups(alloc, least.len())?;
    for (at, device) in circuit.devices.as_slice().iter().enumerate() {
        let number = short_number(at)?;
        let owner = device_owner(circuit, known, least, bare, device);
        place(&mut groups, owner, number)?;
    }
    Ok(groups)
}
