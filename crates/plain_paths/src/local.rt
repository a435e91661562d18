//! The signals over some devices alone, in tables that are set back after each use: so what a use costs is in proportion to
//! its devices, and not to the circuit.

ghost use Rattle.std.specs.Prelude.{◌≡◌, ◌≢◌, ℕ, ◌<◌, ◌⊎◌, ◌↔◌, ◌++◌, ◌∷◌, [], Bool, false, true, All, length, slice_index, vec_len, IfOk, OnOk};
ghost use Rattle.plain_paths.specs.Channels.{HasChannels, IsInRange, channels_over};
ghost use Rattle.plain_paths.specs.Local.{AgreeAt, AgreeAtEnds, HasPlaces, IsFit, Shows, ShowsRoots, devices_at, filled_at, network_with, roots_alone};
ghost use Rattle.plain_paths.specs.Tables.{HasRoots, IsAttained};
ghost use Rattle.plain_paths.specs.declared.channels.Channel.{Channel as ChannelValue};
ghost use Rattle.vrt_model.specs.Circuits.{IsFlat};
ghost use Rattle.vrt_model.specs.Lists.{At, Among, MarksGrow, bit_at, mark_at};
ghost use Rattle.vrt_model.specs.Networks.{HasBound};
ghost use Rattle.vrt_model.specs.Path.{Network};
ghost use Rattle.vrt_model.specs.Reading.{conducts};
ghost use Rattle.vrt_model.specs.Response.{IsStrength, Reaches};
ghost use Rattle.vrt_model.specs.declared.circuit.Device.{Device as DeviceValue};

use crate::channels::{Channel, append};
use crate::marks::spread_all;
use crate::signals::{Signals, signals_over};
use crate::strengths::pass_all;
use std::alloc::Global;
use vrt_model::{Circuit, Dev, Device, Kind, NoMemory};

/// The bit at a place, and 0 where there is none.
fn bit_or_zero(bits: &[Option<bool>], at: usize) -> bool
    ensures { result ≡ filled_at bits.now at }
{
    match bits.get(at) {
        Some(bit) => bit.unwrap_or(false),
        None => false,
    }
}

/// Whether a device conducts where nets have these bits, and 0 where there is none.
fn conducts(device: &Device, bits: &[Option<bool>]) -> bool
    ensures { result ≡ conducts (filled_at bits.now) device.now }
{
    let gate = bit_or_zero(bits, device.gate.0 as usize);
    match device.kind {
        Kind::N => gate,
        Kind::P => !gate,
    }
}

/// Adds the channel of a device, where it conducts.
fn add(device: &Device, bits: &[Option<bool>], channels: &mut Vec<Channel>) -> Result<(), NoMemory>
    ensures { OnOk result (channels.new.items ≡ channels.old.items ++ channels_over false (filled_at bits.now) (device.now ∷ [])) }
{
    if !conducts(device, bits) {
        return Ok(());
    }
    append(channels, Channel::through(device))
}

/// Adds the channel of the device of a number, where it is there and conducts.
fn add_at(
    circuit: &Circuit,
    bits: &[Option<bool>],
    number: Dev,
    channels: &mut Vec<Channel>,
) -> Result<(), NoMemory>
    ensures { OnOk result (channels.new.items ≡ channels.old.items ++ channels_over false (filled_at bits.now) (devices_at circuit.now (number ∷ []))) }
{
    match circuit.devices.get(number.0 as usize) {
        Some(device) => add(device, bits, channels),
        None => Ok(()),
    }
}

/// The channels of those of some devices that conduct where nets have these bits, and 0 where there is none.
fn channels_at(
    alloc: Global,
    circuit: &Circuit,
    bits: &[Option<bool>],
    devices: &[Dev],
) -> Result<Vec<Channel>, NoMemory>
    ensures { IfOk result (λ t. t.items ≡ channels_over false (filled_at bits.now) (devices_at circuit.now devices.now)) }
{
    let mut channels = Vec::new(alloc);
    for number in devices {
        add_at(circuit, bits, *number, &mut channels)?;
    }
    Ok(channels)
}

/// Takes the mark of a net whose strength is above that of its roots.
fn unmark(levels: &[u8], strengths: &[u8], marks: &mut [bool], net: usize)
    requires levels { net < length levels.now }
    requires strengths { net < length strengths.now }
    requires marks { net < length marks.old }
    ensures only { MarksGrow marks.new marks.old }
    ensures kept { (n : ℕ) → mark_at marks.old n ≡ true → slice_index strengths.now n ≡ slice_index levels.now n → mark_at marks.new n ≡ true }
    ensures fits { IsFit levels.now strengths.now marks.new net }
{
    if strengths[net] != levels[net] {
        marks[net] = false;
    }
}

/// Takes the marks of the two nets of a channel, where their strengths are above those of their roots.
fn unmark_both(channel: &Channel, levels: &[u8], strengths: &[u8], marks: &mut [bool])
    requires fits { IsInRange (length marks.old) channel.now }
    requires levels { length levels.now ≡ length marks.old }
    requires strengths { length strengths.now ≡ length marks.old }
    ensures only { MarksGrow marks.new marks.old }
    ensures kept { (n : ℕ) → mark_at marks.old n ≡ true → slice_index strengths.now n ≡ slice_index levels.now n → mark_at marks.new n ≡ true }
    ensures left { IsFit levels.now strengths.now marks.new channel.now.left }
    ensures right { IsFit levels.now strengths.now marks.new channel.now.right }
{
    unmark(levels, strengths, marks, channel.left as usize);
    unmark(levels, strengths, marks, channel.right as usize);
}

/// Takes the marks of the nets at these channels whose strengths are above those of their roots.
fn unmark_all(channels: &[Channel], levels: &[u8], strengths: &[u8], marks: &mut [bool])
    requires fits { All (IsInRange (length marks.old)) channels.now }
    requires levels { length levels.now ≡ length marks.old }
    requires strengths { length strengths.now ≡ length marks.old }
    ensures only { MarksGrow marks.new marks.old }
    ensures kept { (n : ℕ) → mark_at marks.old n ≡ true → slice_index strengths.now n ≡ slice_index levels.now n → mark_at marks.new n ≡ true }
    ensures fits { (ch : ChannelValue) → Among channels.now ch → IsFit levels.now strengths.now marks.new ch.left × IsFit levels.now strengths.now marks.new ch.right }
{
    for channel in channels {
        unmark_both(channel, levels, strengths, marks);
    }
}

/// From the marks of what a value reaches from the roots alone to those of what it reaches over these channels.
fn spread_value(
    channels: &[Channel],
    levels: &[u8],
    strengths: &[u8],
    value: bool,
    marks: &mut [bool],
)
    requires fits { All (IsInRange (length marks.old)) channels.now }
    requires levels { length levels.now ≡ length marks.old }
    requires strengths { length strengths.now ≡ length marks.old }
    ensures { (w : Network) → HasBound w (length marks.old) → HasChannels w channels.now → ((n : ℕ) → IsStrength (roots_alone w) n (slice_index levels.now n)) → ((n : ℕ) → IsStrength w n (slice_index strengths.now n)) → ((n : ℕ) → (mark_at marks.old n ≡ true) ↔ Reaches (roots_alone w) n value) → (n : ℕ) → (mark_at marks.new n ≡ true) ↔ Reaches w n value }
{
    unmark_all(channels, levels, strengths, marks);
    spread_all(channels, strengths, value, marks);
}

/// Raises a table of strengths in rounds until none changes.
fn pass_table(channels: &[Channel], table: &mut Vec<u8>)
    requires fits { All (IsInRange (vec_len table.old)) channels.now }
    ensures len { vec_len table.new ≡ vec_len table.old }
    ensures strength { (w : Network) → HasBound w (vec_len table.old) → HasChannels w channels.now → HasRoots w table.old.items → IsAttained w table.old.items → (n : ℕ) → IsStrength w n (slice_index table.new.items n) }
{
    pass_all(channels, table.as_mut_slice());
}

/// From a table of what a value reaches from the roots alone to that of what it reaches over these channels.
fn spread_table(
    channels: &[Channel],
    levels: &[u8],
    strengths: &[u8],
    value: bool,
    marks: &mut Vec<bool>,
)
    requires fits { All (IsInRange (vec_len marks.old)) channels.now }
    requires levels { length levels.now ≡ vec_len marks.old }
    requires strengths { length strengths.now ≡ vec_len marks.old }
    ensures len { vec_len marks.new ≡ vec_len marks.old }
    ensures reached { (w : Network) → HasBound w (vec_len marks.old) → HasChannels w channels.now → ((n : ℕ) → IsStrength (roots_alone w) n (slice_index levels.now n)) → ((n : ℕ) → IsStrength w n (slice_index strengths.now n)) → ((n : ℕ) → (bit_at marks.old.items n ≡ true) ↔ Reaches (roots_alone w) n value) → (n : ℕ) → (bit_at marks.new.items n ≡ true) ↔ Reaches w n value }
{
    spread_value(channels, levels, strengths, value, marks.as_mut_slice());
}

/// From tables of the signals of the roots alone to those over these channels.
fn raise_over(channels: &[Channel], roots: &Signals, tables: &mut Signals)
    requires fits { All (IsInRange (vec_len tables.old.strengths)) channels.now }
    requires roots { HasPlaces (vec_len tables.old.strengths) roots.now }
    requires places { HasPlaces (vec_len tables.old.strengths) tables.old }
    ensures places { HasPlaces (vec_len tables.old.strengths) tables.new }
    ensures signals { (w : Network) → HasBound w (vec_len tables.old.strengths) → HasChannels w channels.now → Shows (roots_alone w) roots.now → Shows (roots_alone w) tables.old → Shows w tables.new }
{
    let levels = roots.strengths.as_slice();
    pass_table(channels, &mut tables.strengths);
    spread_table(
        channels,
        levels,
        tables.strengths.as_slice(),
        false,
        &mut tables.zeros,
    );
    spread_table(
        channels,
        levels,
        tables.strengths.as_slice(),
        true,
        &mut tables.ones,
    );
}

/// The signals of the roots of a circuit alone, where no device conducts, at the bits of the given nets by net, and those of
/// the holds by place. Nothing but want of memory refuses.
pub fn root_signals(
    alloc: Global,
    circuit: &Circuit,
    given: &[bool],
    held: &[bool],
) -> Result<Signals, NoMemory>
    requires { IsFlat circuit.now }
    ensures places { IfOk result (HasPlaces (length circuit.now.nets)) }
    ensures signals { IfOk result (ShowsRoots circuit.now (bit_at given.now) (bit_at held.now)) }
{
    let signals = signals_over(alloc, circuit, &[], given, held)?;
    Ok(signals)
}

/// From tables of the signals of the roots of a circuit alone to those over some of its devices, where nets have these bits,
/// and 0 where there is none. What it costs is in proportion to the rounds over these devices.
pub fn raise(
    alloc: Global,
    circuit: &Circuit,
    bits: &[Option<bool>],
    devices: &[Dev],
    roots: &Signals,
    tables: &mut Signals,
) -> Result<(), NoMemory>
    requires circuit { IsFlat circuit.now }
    requires roots { HasPlaces (length circuit.now.nets) roots.now }
    requires places { HasPlaces (length circuit.now.nets) tables.old }
    ensures places { OnOk result (HasPlaces (length circuit.now.nets) tables.new) }
    ensures signals { OnOk result ((given : ℕ → Bool) → (held : ℕ → Bool) → ShowsRoots circuit.now given held roots.now → ShowsRoots circuit.now given held tables.old → Shows (network_with circuit.now (filled_at bits.now) given held (devices_at circuit.now devices.now)) tables.new) }
{
    let channels = channels_at(alloc, circuit, bits, devices)?;
    raise_over(channels.as_slice(), roots, tables);
    Ok(())
}

/// Sets a strength back.
fn copy_level(from: &[u8], table: &mut Vec<u8>, net: usize)
    requires from { net < length from.now }
    requires table { net < vec_len table.old }
    ensures len { vec_len table.new ≡ vec_len table.old }
    ensures there { slice_index table.new.items net ≡ slice_index from.now net }
    ensures each { (n : ℕ) → n ≢ net → slice_index table.new.items n ≡ slice_index table.old.items n }
{
    table[net] = from[net];
}

/// Sets a mark back.
fn copy_mark(from: &[bool], table: &mut Vec<bool>, net: usize)
    requires from { net < length from.now }
    requires table { net < vec_len table.old }
    ensures len { vec_len table.new ≡ vec_len table.old }
    ensures there { bit_at table.new.items net ≡ bit_at from.now net }
    ensures each { (n : ℕ) → n ≢ net → bit_at table.new.items n ≡ bit_at table.old.items n }
{
    table[net] = from[net];
}

/// Sets a net back.
fn restore_net(roots: &Signals, tables: &mut Signals, net: usize)
    requires inside { net < vec_len tables.old.strengths }
    requires roots { HasPlaces (vec_len tables.old.strengths) roots.now }
    requires places { HasPlaces (vec_len tables.old.strengths) tables.old }
    ensures places { HasPlaces (vec_len tables.old.strengths) tables.new }
    ensures there { AgreeAt tables.new roots.now net }
    ensures each { (n : ℕ) → AgreeAt tables.new roots.now n ⊎ AgreeAt tables.new tables.old n }
{
    copy_level(roots.strengths.as_slice(), &mut tables.strengths, net);
    copy_mark(roots.zeros.as_slice(), &mut tables.zeros, net);
    copy_mark(roots.ones.as_slice(), &mut tables.ones, net);
}

/// Sets the two nets of a device back.
fn restore_ends(device: &Device, roots: &Signals, tables: &mut Signals)
    requires left { device.now.left.0 < vec_len tables.old.strengths }
    requires right { device.now.right.0 < vec_len tables.old.strengths }
    requires roots { HasPlaces (vec_len tables.old.strengths) roots.now }
    requires places { HasPlaces (vec_len tables.old.strengths) tables.old }
    ensures places { HasPlaces (vec_len tables.old.strengths) tables.new }
    ensures there { AgreeAtEnds tables.new roots.now device.now }
    ensures each { (n : ℕ) → AgreeAt tables.new roots.now n ⊎ AgreeAt tables.new tables.old n }
{
    restore_net(roots, tables, device.left.0 as usize);
    restore_net(roots, tables, device.right.0 as usize);
}

/// Sets the two nets of the device of a number back, where it is there.
fn restore_at(circuit: &Circuit, number: Dev, roots: &Signals, tables: &mut Signals)
    requires circuit { IsFlat circuit.now }
    requires roots { HasPlaces (length circuit.now.nets) roots.now }
    requires places { HasPlaces (length circuit.now.nets) tables.old }
    ensures places { HasPlaces (length circuit.now.nets) tables.new }
    ensures there { (d : DeviceValue) → At circuit.now.devices number.0 d → AgreeAtEnds tables.new roots.now d }
    ensures each { (n : ℕ) → AgreeAt tables.new roots.now n ⊎ AgreeAt tables.new tables.old n }
{
    if let Some(device) = circuit.devices.get(number.0 as usize) {
        restore_ends(device, roots, tables);
    }
}

/// From tables of the signals over some devices of a circuit back to those of its roots alone.
pub fn restore(circuit: &Circuit, devices: &[Dev], roots: &Signals, tables: &mut Signals)
    requires circuit { IsFlat circuit.now }
    requires roots { HasPlaces (length circuit.now.nets) roots.now }
    requires places { HasPlaces (length circuit.now.nets) tables.old }
    ensures places { HasPlaces (length circuit.now.nets) tables.new }
    ensures signals { (reading : ℕ → Bool) → (given : ℕ → Bool) → (held : ℕ → Bool) → ShowsRoots circuit.now given held roots.now → Shows (network_with circuit.now reading given held (devices_at circuit.now devices.now)) tables.old → ShowsRoots circuit.now given held tables.new }
{
    for number in devices {
        restore_at(circuit, *number, roots, tables);
    }
}
