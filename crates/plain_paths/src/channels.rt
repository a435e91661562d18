//! The channels of the devices that conduct.

ghost use Rattle.std.specs.Prelude.{◌≡◌, ◌++◌, ◌∷◌, [], IfOk, OnOk};
ghost use Rattle.plain_paths.specs.Channels.{channel_of, channels_of, channels_over, is_on};
ghost use Rattle.vrt_model.specs.Lists.{bit_at};

use std::alloc::Global;
use vrt_model::{Circuit, Device, Kind, NoMemory};

/// The channel of a conducting device. It passes signals of at most its level between two nets, in both directions.
#[derive(Clone, Copy)]
pub(crate) struct Channel {
    pub(crate) left: u32,
    pub(crate) right: u32,
    pub(crate) level: u8,
}

/// The bit at a place, and 0 past the end.
pub fn bit(bits: &[bool], at: usize) -> bool
    ensures { result ≡ bit_at bits.now at }
{
    match bits.get(at) {
        Some(bit) => *bit,
        None => false,
    }
}

/// Whether the device is in the bare or the kept circuit and conducts: an n-device where its gate is 1, a p-device
/// where it is 0.
fn is_on(device: &Device, bare: bool, reading: &[bool]) -> bool
    ensures { result ≡ is_on bare (bit_at reading.now) device.now }
{
    let gate = bit(reading, device.gate.0 as usize);
    let conducts = match device.kind {
        Kind::N => gate,
        Kind::P => !gate,
    };
    !(bare && device.keeper) && conducts
}

impl Channel {
    /// The channel of a device.
    pub(crate) fn through(device: &Device) -> Self
        ensures { result ≡ channel_of device.now }
    {
        Channel {
            left: device.left.0,
            right: device.right.0,
            level: device.level,
        }
    }
}

/// Adds a channel at the end.
pub(crate) fn append(channels: &mut Vec<Channel>, channel: Channel) -> Result<(), NoMemory>
    ensures { OnOk result (channels.new.items ≡ channels.old.items ++ channel ∷ []) }
{
    match channels.push(channel) {
        Ok(()) => Ok(()),
        Err(_) => Err(NoMemory),
    }
}

/// Adds the channel of a device, where it conducts.
fn add(
    device: &Device,
    bare: bool,
    reading: &[bool],
    channels: &mut Vec<Channel>,
) -> Result<(), NoMemory>
    ensures { OnOk result (channels.new.items ≡ channels.old.items ++ channels_over bare (bit_at reading.now) (device.now ∷ [])) }
{
    if !is_on(device, bare, reading) {
        return Ok(());
    }
    append(channels, Channel::through(device))
}

/// The channels of the devices that conduct at a reading, in the bare or the kept circuit.
pub(crate) fn channels(
    alloc: Global,
    circuit: &Circuit,
    bare: bool,
    reading: &[bool],
) -> Result<Vec<Channel>, NoMemory>
    ensures { IfOk result (λ t. t.items ≡ channels_of bare (bit_at reading.now) circuit.now) }
{
    let mut channels = Vec::new(alloc);
    for device in circuit.devices.as_slice() {
        add(device, bare, reading, &mut channels)?;
    }
    Ok(channels)
}
