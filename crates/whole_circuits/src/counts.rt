//! How many channels end at each net: so many counts for each net as there are levels, which are those of devices at both scales.

ghost use Rattle.std.specs.Prelude.{◌≡◌, ◌<◌, ◌&&◌, ◌||◌, ◌==◌, ◌+◌, ◌*◌, ℕ, IfOk, OnOk, cond, length, replicate};
ghost use Rattle.std.specs.List.{slice_index};
ghost use Rattle.vrt_model.specs.Levels.{level_counts};
ghost use Rattle.whole_circuits.specs.Counts.{AreChanged, AreCounts, bears, bears_all, bears_at, changed, channels_of, is_of};

use crate::owners::one_more;
use std::alloc::Global;
use vrt_model::{Device, Drive, LEVEL_COUNTS, NoMemory};

/// So many counts of nothing.
pub(crate) fn no_counts(alloc: Global, count: usize) -> Result<Vec<usize>, NoMemory>
    ensures { IfOk result (λ counts. counts.items ≡ replicate count 0) }
{
    match vec![in alloc; 0usize; count] {
        Ok(counts) => Ok(counts),
        Err(_) => Err(NoMemory),
    }
}

/// The count at a place, 0 past the end.
pub(crate) fn count_at(counts: &[usize], at: usize) -> usize
    ensures { result ≡ slice_index counts.now at }
{
    if at < counts.len() { counts[at] } else { 0 }
}

/// A count with one more, or with one fewer.
fn changed(count: usize, more: bool) -> Result<usize, NoMemory>
    ensures { IfOk result (λ now. now ≡ changed more count 1) }
{
    if more {
        one_more(count)
    } else {
        Ok(count.saturating_sub(1))
    }
}

/// Counts one more at a place, or one fewer, if there is a count.
pub(crate) fn count_place(counts: &mut Vec<usize>, more: bool, at: usize) -> Result<(), NoMemory>
    ensures len { OnOk result (length counts.new.items ≡ length counts.old.items) }
    ensures is { OnOk result ((e : ℕ) → e < length counts.old.items → slice_index counts.new.items e ≡ changed more (slice_index counts.old.items e) (cond (at == e) 1 0)) }
{
    if at < counts.len() {
        let count = changed(counts[at], more)?;
        counts[at] = count;
    }
    Ok(())
}

/// Counts the end of a channel at a net in, or out, among those of its level.
fn count_end(counts: &mut Vec<usize>, more: bool, net: u32, level: u8) -> Result<(), NoMemory>
    ensures len { OnOk result (length counts.new.items ≡ length counts.old.items) }
    ensures is { OnOk result (AreChanged more (λ n k. cond (net == n && level == k) 1 0) counts.old.items counts.new.items) }
{
    if level >= LEVEL_COUNTS {
        return Ok(());
    }
    let at = LEVEL_COUNTS as usize * net as usize + level as usize;
    count_place(counts, more, at)
}

/// Counts the channel of a device in, or out, at the nets at which it ends.
fn count_channel(counts: &mut Vec<usize>, more: bool, device: &Device) -> Result<(), NoMemory>
    ensures len { OnOk result (length counts.new.items ≡ length counts.old.items) }
    ensures is { OnOk result (AreChanged more (λ n k. cond (is_of k n device.now) 1 0) counts.old.items counts.new.items) }
{
    count_end(counts, more, device.left.0, device.level)?;
    if device.left.0 == device.right.0 {
        return Ok(());
    }
    count_end(counts, more, device.right.0, device.level)
}

/// Counts the channels of some devices in, or out, at the nets at which they end: at each net that has counts.
pub fn count_channels(
    counts: &mut Vec<usize>,
    more: bool,
    devices: &[Device],
) -> Result<(), NoMemory>
    ensures len { OnOk result (length counts.new.items ≡ length counts.old.items) }
    ensures is { OnOk result (AreChanged more (λ n k. length (channels_of k devices.now n)) counts.old.items counts.new.items) }
{
    let mut rest = devices;
    'devices: while let Some((device, behind)) = rest.split_first() {
        count_channel(counts, more, device)?;
        rest = behind;
    }
    Ok(())
}

/// How many counts so many nets have.
fn counts_of(count: usize) -> Result<usize, NoMemory>
    ensures { IfOk result (λ size. size ≡ level_counts * count) }
{
    match count.checked_mul(LEVEL_COUNTS as usize) {
        Some(size) => Ok(size),
        None => Err(NoMemory),
    }
}

/// For each of so many nets how many channels of some devices end there, by the levels of the devices.
pub fn channel_counts(
    alloc: Global,
    count: usize,
    devices: &[Device],
) -> Result<Vec<usize>, NoMemory>
    ensures len { IfOk result (λ counts. length counts.items ≡ level_counts * count) }
    ensures are { IfOk result (λ counts. AreCounts count devices.now counts.items) }
{
    let size = counts_of(count)?;
    let mut counts = no_counts(alloc, size)?;
    count_channels(&mut counts, true, devices)?;
    Ok(counts)
}

/// Whether an output of a drive may be where a channel of a device of this level ends.
fn bears(drive: Drive, level: u8) -> bool
    ensures { result ≡ bears drive level }
{
    match drive {
        Drive::Soft => false,
        Drive::Level(most) => level <= most,
    }
}

/// Whether it may be at a net, as to the channels there of devices of a level.
fn bears_at(counts: &[usize], drive: Drive, net: u32, level: u8) -> bool
    ensures { result ≡ bears_at counts.now drive net level }
{
    let at = LEVEL_COUNTS as usize * net as usize + level as usize;
    let none = count_at(counts, at) == 0;
    let borne = bears(drive, level);
    none || borne
}

/// Whether an output of a drive may be at a net, as to all channels there.
pub(crate) fn bears_all(counts: &[usize], drive: Drive, net: u32) -> bool
    ensures { result ≡ bears_all counts.now drive net }
{
    let mut all = true;
    for level in 0..LEVEL_COUNTS {
        let here = bears_at(counts, drive, net, level);
        all = both(all, here);
    }
    all
}

/// Both of two tests.
pub(crate) fn both(one: bool, other: bool) -> bool
    ensures { result ≡ (one && other) }
{
    one && other
}
