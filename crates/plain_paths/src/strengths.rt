//! The strength of each net.

ghost use Rattle.std.specs.Prelude.{◌≡◌, ℕ, ◌<◌, ◌≤◌, ◌⊎◌, min, false, map, length, slice_index, IfOk, All};
ghost use Rattle.plain_paths.specs.Channels.{HasChannels, IsOver, IsInRange, channel_of};
ghost use Rattle.vrt_model.specs.Circuits.{IsFlat};
ghost use Rattle.plain_paths.specs.Tables.{HasGrown, HasHolds, HasPassed, HasRoots, IsAttained, level_of_net};
ghost use Rattle.plain_paths.specs.declared.channels.Channel.{Channel as ChannelValue};
ghost use Rattle.vrt_model.specs.Networks.{HasBound};
ghost use Rattle.vrt_model.specs.Levels.{source_level};
ghost use Rattle.vrt_model.specs.Lists.{Among};
ghost use Rattle.vrt_model.specs.Path.{IsOn, Network};
ghost use Rattle.vrt_model.specs.Response.{IsStrength};
ghost use Rattle.vrt_model.specs.declared.circuit.Device.{Device};

use crate::channels::Channel;
use std::alloc::Global;
use vrt_model::{Circuit, FlatNet, NetKind, NoMemory};

/// Takes the level that passes from one net to another over a device, where it is greater: the lesser of the net's
/// level and the device's.
fn pass_level(table: &mut [u8], from: usize, to: usize, level: u8) -> bool
    requires from { from < length table.old }
    requires to { to < length table.old }
    ensures grown { HasGrown table.old table.new }
    ensures passed { min (slice_index table.old from) level ≤ slice_index table.new to }
    ensures attained { (n : ℕ) → (slice_index table.new n ≡ slice_index table.old n) ⊎ ((n ≡ to) × (slice_index table.new n ≡ min (slice_index table.old from) level)) }
    ensures same { result ≡ false → table.new ≡ table.old }
{
    let through = table[from].min(level);
    if through > table[to] {
        table[to] = through;
        true
    } else {
        false
    }
}

/// Takes what passes over a channel, in both directions, and says whether anything changed.
fn pass_both(channel: &Channel, table: &mut [u8]) -> bool
    requires fits { IsInRange (length table.old) channel.now }
    ensures grown { HasGrown table.old table.new }
    ensures passed { HasPassed channel.now table.old table.new }
    ensures attained { (w : Network) (d : Device) → IsOn w d → channel_of d ≡ channel.now → IsAttained w table.old → IsAttained w table.new }
    ensures same { result ≡ false → table.new ≡ table.old }
{
    let left = channel.left as usize;
    let right = channel.right as usize;
    let forth = pass_level(table, left, right, channel.level);
    let back = pass_level(table, right, left, channel.level);
    forth | back
}

/// Goes over the channels once, in place, and says whether anything changed.
fn pass_round(channels: &[Channel], table: &mut [u8]) -> bool
    requires fits { All (IsInRange (length table.old)) channels.now }
    ensures grown { HasGrown table.old table.new }
    ensures passed { (ch : ChannelValue) → Among channels.now ch → HasPassed ch table.old table.new }
    ensures attained { (w : Network) → HasChannels w channels.now → IsAttained w table.old → IsAttained w table.new }
    ensures same { result ≡ false → table.new ≡ table.old }
{
    let mut changed = false;
    for channel in channels {
        let grew = pass_both(channel, table);
        changed |= grew;
    }
    changed
}

/// Raises the levels in rounds until none changes, in at most as many rounds as there are nets.
pub(crate) fn pass_all(channels: &[Channel], table: &mut [u8])
    requires fits { All (IsInRange (length table.old)) channels.now }
    ensures { (w : Network) → HasBound w (length table.old) → HasChannels w channels.now → HasRoots w table.old → IsAttained w table.old → (n : ℕ) → IsStrength w n (slice_index table.new n) }
{
    'rounds: for _count in 0..table.len() {
        if !pass_round(channels, table) {
            return;
        }
    }
}

/// The level that a net has as a root by its kind, where sources have the first level, and 0 where it is none.
fn given_level(source: u8, net: &FlatNet) -> u8
    ensures { result ≡ level_of_net source net.now }
{
    match net.kind {
        NetKind::Plain => 0,
        _ => source,
    }
}

/// The level that each net has as a root by its kind.
fn given_levels(alloc: Global, circuit: &Circuit) -> Result<Vec<u8>, NoMemory>
    ensures { IfOk result (λ t. t.items ≡ map (level_of_net (source_level circuit.now)) circuit.now.nets) }
{
    let source = circuit.source_level();
    let nets = circuit.nets.as_slice().iter();
    match nets.map(|net| given_level(source, net)).collect(alloc) {
        Ok(levels) => Ok(levels),
        Err(_) => Err(NoMemory),
    }
}

/// Gives a net at least a level.
fn raise(table: &mut [u8], at: usize, level: u8)
    requires { at < length table.old }
    ensures grown { HasGrown table.old table.new }
    ensures raised { level ≤ slice_index table.new at }
    ensures only { (n : ℕ) → (slice_index table.new n ≡ slice_index table.old n) ⊎ ((n ≡ at) × (slice_index table.new n ≡ level)) }
{
    if table[at] < level {
        table[at] = level;
    }
}

/// Gives the net of each hold at least its size.
fn add_holds(circuit: &Circuit, table: &mut [u8])
    requires circuit { IsFlat circuit.now }
    requires len { length table.old ≡ length circuit.now.nets }
    ensures grown { HasGrown table.old table.new }
    ensures holds { HasHolds circuit.now.holds table.new }
    ensures attained { (w : Network) → w.holds ≡ circuit.now.holds → IsAttained w table.old → IsAttained w table.new }
{
    for hold in circuit.holds.as_slice() {
        raise(table, hold.net.0 as usize, hold.size);
    }
}

/// Makes the strengths out of the levels that the nets have by their kinds.
fn raise_strengths(circuit: &Circuit, channels: &[Channel], table: &mut [u8])
    requires circuit { IsFlat circuit.now }
    requires fits { All (IsInRange (length circuit.now.nets)) channels.now }
    requires given { table.old ≡ map (level_of_net (source_level circuit.now)) circuit.now.nets }
    ensures { (w : Network) → IsOver circuit.now w → HasBound w (length circuit.now.nets) → HasChannels w channels.now → (n : ℕ) → IsStrength w n (slice_index table.new n) }
{
    add_holds(circuit, table);
    pass_all(channels, table);
}

/// The strength of each net of a circuit where these are the channels of the conducting devices.
pub(crate) fn strengths(
    alloc: Global,
    circuit: &Circuit,
    channels: &[Channel],
) -> Result<Vec<u8>, NoMemory>
    requires circuit { IsFlat circuit.now }
    requires fits { All (IsInRange (length circuit.now.nets)) channels.now }
    ensures len { IfOk result (λ t. length t.items ≡ length circuit.now.nets) }
    ensures strength { IfOk result (λ t. (w : Network) → IsOver circuit.now w → HasBound w (length circuit.now.nets) → HasChannels w channels.now → (n : ℕ) → IsStrength w n (slice_index t.items n)) }
{
    let mut table = given_levels(alloc, circuit)?;
    raise_strengths(circuit, channels, &mut table);
    Ok(table)
}
