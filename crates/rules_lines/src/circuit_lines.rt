//! Lines on nets, devices, cells and models, of a few words.

ghost use Rattle.std.specs.Prelude.{◌≡◌, None, Some, IfOk};
ghost use Rattle.text_lines.specs.Bytes.{lowered};
ghost use Rattle.rules_lines.specs.declared.entry.Entry.TheVariants.{HoldLine, InstanceMatchLine, MatchLine};
ghost use Rattle.rules_lines.specs.Words.{cut_first, signed};
ghost use Rattle.rules_lines.specs.Lines.{device_by, device_entry, hold_entry, match_by, match_entry, pair_entry, paired_model, port_entry, scale_entry, strength_entry};

use crate::entry::{ByScale, Entry};
use crate::words::{
    cut, kind, level, lower, lower_two, scale, sign_off, size, usual_level, usual_size,
};
use std::alloc::Global;
use vrt_model::{Kind, NoMemory, Text};

/// `scale 8` or `scale 16`
pub fn scaling(words: &[Text]) -> Option<Entry>
    ensures { result ≡ scale_entry words.now }
{
    match words {
        [word] => match scale(word.as_bytes()) {
            Some(scale) => Some(Entry::ScaleLine { scale }),
            None => None,
        },
        _ => None,
    }
}

fn device_of(
    alloc: Global,
    model: &Text,
    kind: Option<Kind>,
    level: ByScale,
) -> Result<Option<Entry>, NoMemory>
    ensures { IfOk result (λ entry. entry ≡ device_by model.now kind level) }
{
    match kind {
        Some(kind) => Ok(Some(Entry::DeviceLine {
            model: lower(alloc, model.as_bytes())?,
            kind,
            level,
        })),
        None => Ok(None),
    }
}

/// `device MODEL n` or `p`, `[LEVEL]`
pub fn device(alloc: Global, words: &[Text]) -> Result<Option<Entry>, NoMemory>
    ensures { IfOk result (λ entry. entry ≡ device_entry words.now) }
{
    match words {
        [model, word] => device_of(alloc, model, kind(word.as_bytes()), usual_level()),
        [model, word, last] => {
            device_of(alloc, model, kind(word.as_bytes()), level(last.as_bytes()))
        }
        _ => Ok(None),
    }
}

/// `strength CELL DEV LEVEL`
pub fn strength(alloc: Global, words: &[Text]) -> Result<Option<Entry>, NoMemory>
    ensures { IfOk result (λ entry. entry ≡ strength_entry words.now) }
{
    match words {
        [cell, device, last] => {
            let (cell, device) = lower_two(alloc, cell, device)?;
            let level = level(last.as_bytes());
            Ok(Some(Entry::StrengthLine {
                cell,
                device,
                level,
            }))
        }
        _ => Ok(None),
    }
}

/// The model of a `pair` line, none for `-`.
fn paired(alloc: Global, model: &Text) -> Result<Option<Text>, NoMemory>
    ensures { IfOk result (λ found. found ≡ paired_model model.now) }
{
    if model.as_bytes() == b"-".as_slice() {
        return Ok(None);
    }
    let model = Text::from_bytes(alloc, model.as_bytes())?;
    Ok(Some(model))
}

/// `pair CELL MODEL`
pub fn pair(alloc: Global, words: &[Text]) -> Result<Option<Entry>, NoMemory>
    ensures { IfOk result (λ entry. entry ≡ pair_entry words.now) }
{
    match words {
        [cell, model] => {
            let model = paired(alloc, model)?;
            let cell = lower(alloc, cell.as_bytes())?;
            Ok(Some(Entry::PairLine { cell, model }))
        }
        _ => Ok(None),
    }
}

/// `port CELL PORT SIGNAL`
pub fn port(alloc: Global, words: &[Text]) -> Result<Option<Entry>, NoMemory>
    ensures { IfOk result (λ entry. entry ≡ port_entry words.now) }
{
    match words {
        [cell, port, signal] => {
            let signal = Text::from_bytes(alloc, signal.as_bytes())?;
            let (cell, port) = lower_two(alloc, cell, port)?;
            Ok(Some(Entry::PortLine { cell, port, signal }))
        }
        _ => Ok(None),
    }
}

fn hold_of(alloc: Global, cell: &Text, net: &Text, size: ByScale) -> Result<Option<Entry>, NoMemory>
    ensures { IfOk result (λ entry. entry ≡ Some (HoldLine (lowered cell.now) (lowered net.now) size)) }
{
    let (cell, net) = lower_two(alloc, cell, net)?;
    Ok(Some(Entry::HoldLine { cell, net, size }))
}

/// `hold CELL NET [SIZE]`
pub fn hold(alloc: Global, words: &[Text]) -> Result<Option<Entry>, NoMemory>
    ensures { IfOk result (λ entry. entry ≡ hold_entry words.now) }
{
    match words {
        [cell, net] => hold_of(alloc, cell, net, usual_size()),
        [cell, net, last] => hold_of(alloc, cell, net, size(last.as_bytes())),
        _ => Ok(None),
    }
}

/// A latch of an instance within a cell.
fn instance_match(
    alloc: Global,
    cell: &Text,
    instance: &Text,
    inner: Text,
    latch: &Text,
) -> Result<Entry, NoMemory>
    ensures { IfOk result (λ entry. entry ≡ InstanceMatchLine (lowered cell.now) (lowered «instance».now) inner (signed latch.now)) }
{
    let latch = sign_off(alloc, latch.as_bytes())?;
    let (cell, instance) = lower_two(alloc, cell, instance)?;
    Ok(Entry::InstanceMatchLine {
        cell,
        instance,
        inner,
        latch,
    })
}

/// A net of a cell itself.
fn net_match(alloc: Global, cell: &Text, net: &Text, latch: &Text) -> Result<Entry, NoMemory>
    ensures { IfOk result (λ entry. entry ≡ MatchLine (lowered cell.now) (lowered net.now) (signed latch.now)) }
{
    let latch = sign_off(alloc, latch.as_bytes())?;
    let (cell, net) = lower_two(alloc, cell, net)?;
    Ok(Entry::MatchLine { cell, net, latch })
}

fn match_of(alloc: Global, cell: &Text, place: &Text, latch: &Text) -> Result<Entry, NoMemory>
    ensures { IfOk result (λ entry. entry ≡ match_by cell.now place.now (cut_first 58 place.now) latch.now) }
{
    match cut(alloc, b':', place.as_bytes())? {
        Some((instance, inner)) => instance_match(alloc, cell, &instance, inner, latch),
        None => net_match(alloc, cell, place, latch),
    }
}

/// `match CELL NET [!]LATCH`, `match CELL INST:LATCH [!]LATCH`
pub fn matching(alloc: Global, words: &[Text]) -> Result<Option<Entry>, NoMemory>
    ensures { IfOk result (λ entry. entry ≡ match_entry words.now) }
{
    match words {
        [cell, place, latch] => {
            let entry = match_of(alloc, cell, place, latch)?;
            Ok(Some(entry))
        }
        _ => Ok(None),
    }
}
