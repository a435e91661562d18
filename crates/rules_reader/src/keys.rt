//! The keys of a line, found by hash among those before it.

ghost use Rattle.std.specs.Prelude.{◌≡◌, ◌++◌, ◌∷◌, [], map, codes, IfOk};
ghost use Rattle.rules_reader.specs.Claimed.{Claims, ClaimsOne};
ghost use Rattle.rules_reader.specs.Keys.{clocks_on, key, keys_of, spaced};

use crate::texts::copy;
use names::Names;
use rules_lines::{ClockBit, Entry};
use std::alloc::Global;
use text_lines::{WordList, first_word};
use vrt_model::{NoMemory, Text};

/// Words with one more and a blank.
fn with_word(front: Text, word: &Text) -> Result<Text, NoMemory>
    ensures { IfOk result (λ more. more ≡ front ++ spaced word.now) }
{
    let mut more = front;
    more.extend(word.as_bytes())?;
    match more.push(b' ') {
        Ok(()) => Ok(more),
        Err(_) => Err(NoMemory),
    }
}

/// A table and a word with blanks.
fn front_of(alloc: Global, table: &[u8], word: &Text) -> Result<Text, NoMemory>
    ensures { IfOk result (λ front. front ≡ table.now ++ spaced word.now) }
{
    let front = Text::from_bytes(alloc, table)?;
    with_word(front, word)
}

/// Adds a key, or answers its last word where it is there.
fn claim(
    alloc: Global,
    keys: &mut Names,
    front: &Text,
    last: &[u8],
) -> Result<Option<Text>, NoMemory>
    ensures { IfOk result (ClaimsOne (key front.now last.now) keys.old keys.new) }
{
    let mut text = copy(alloc, front)?;
    text.extend(last)?;
    if keys.contains(text.as_bytes()) {
        let name = Text::from_bytes(alloc, last)?;
        return Ok(Some(name));
    }
    keys.number(text.as_bytes())?;
    Ok(None)
}

/// Adds the keys of some last words, up to the first that is there, which is answered.
fn claim_all(
    alloc: Global,
    keys: &mut Names,
    front: &Text,
    lasts: &WordList,
) -> Result<Option<Text>, NoMemory>
    ensures { IfOk result (Claims (map (key front.now) lasts.now) keys.old keys.new) }
{
    let mut rest = lasts.as_line();
    'lasts: while let Some((last, behind)) = first_word(rest) {
        if let Some(name) = claim(alloc, keys, front, last)? {
            return Ok(Some(name));
        }
        rest = behind;
    }
    Ok(None)
}

/// The same for clocks of a phase.
fn claim_clocks(
    alloc: Global,
    keys: &mut Names,
    front: &Text,
    bits: &[ClockBit],
) -> Result<Option<Text>, NoMemory>
    ensures { IfOk result (Claims (map (key front.now) (clocks_on bits.now)) keys.old keys.new) }
{
    let mut at = 0;
    'bits: while at < bits.len() {
        if let Some(name) = claim(alloc, keys, front, bits[at].clock.as_bytes())? {
            return Ok(Some(name));
        }
        at += 1;
    }
    Ok(None)
}

/// The key of a table and its one word.
fn claim_word(
    alloc: Global,
    keys: &mut Names,
    table: &[u8],
    last: &Text,
) -> Result<Option<Text>, NoMemory>
    ensures { IfOk result (Claims (key table.now last.now ∷ []) keys.old keys.new) }
{
    let front = Text::from_bytes(alloc, table)?;
    claim(alloc, keys, &front, last.as_bytes())
}

/// The key of a table, a cell and a word.
fn claim_in(
    alloc: Global,
    keys: &mut Names,
    table: &[u8],
    cell: &Text,
    last: &Text,
) -> Result<Option<Text>, NoMemory>
    ensures { IfOk result (Claims (key (table.now ++ spaced cell.now) last.now ∷ []) keys.old keys.new) }
{
    let front = front_of(alloc, table, cell)?;
    claim(alloc, keys, &front, last.as_bytes())
}

/// The key of a table, a cell and two words.
fn claim_within(
    alloc: Global,
    keys: &mut Names,
    table: &[u8],
    cell: &Text,
    word: &Text,
    last: &Text,
) -> Result<Option<Text>, NoMemory>
    ensures { IfOk result (Claims (key ((table.now ++ spaced cell.now) ++ spaced word.now) last.now ∷ []) keys.old keys.new) }
{
    let front = front_of(alloc, table, cell)?;
    let front = with_word(front, word)?;
    claim(alloc, keys, &front, last.as_bytes())
}

/// The keys of a table and each of some words.
fn claim_words(
    alloc: Global,
    keys: &mut Names,
    table: &[u8],
    lasts: &WordList,
) -> Result<Option<Text>, NoMemory>
    ensures { IfOk result (Claims (map (key table.now) lasts.now) keys.old keys.new) }
{
    let front = Text::from_bytes(alloc, table)?;
    claim_all(alloc, keys, &front, lasts)
}

/// The keys of the devices of a `keeper` line.
fn claim_devices(
    alloc: Global,
    keys: &mut Names,
    cell: &Text,
    devices: &WordList,
) -> Result<Option<Text>, NoMemory>
    ensures { IfOk result (Claims (map (key (codes "keeper " ++ spaced cell.now)) devices.now) keys.old keys.new) }
{
    let front = front_of(alloc, b"keeper ".as_slice(), cell)?;
    claim_all(alloc, keys, &front, devices)
}

/// The keys of a `phase` line: its name, and each clock on it.
fn claim_phase(
    alloc: Global,
    keys: &mut Names,
    name: &Text,
    bits: &[ClockBit],
) -> Result<Option<Text>, NoMemory>
    ensures { IfOk result (Claims (key (codes "phase ") name.now ∷ map (key (codes "phase " ++ spaced name.now)) (clocks_on bits.now)) keys.old keys.new) }
{
    let table = Text::from_bytes(alloc, b"phase ".as_slice())?;
    if let Some(name) = claim(alloc, keys, &table, name.as_bytes())? {
        return Ok(Some(name));
    }
    let front = front_of(alloc, b"phase ".as_slice(), name)?;
    claim_clocks(alloc, keys, &front, bits)
}

/// The key of a `strength` line.
fn claim_strength(
    alloc: Global,
    keys: &mut Names,
    cell: &Text,
    device: &Text,
) -> Result<Option<Text>, NoMemory>
    ensures { IfOk result (Claims (key (codes "strength " ++ spaced cell.now) device.now ∷ []) keys.old keys.new) }
{
    claim_in(alloc, keys, b"strength ".as_slice(), cell, device)
}

/// The key of a `clockport` line.
fn claim_clockport(
    alloc: Global,
    keys: &mut Names,
    cell: &Text,
    port: &Text,
) -> Result<Option<Text>, NoMemory>
    ensures { IfOk result (Claims (key (codes "clockport " ++ spaced cell.now) port.now ∷ []) keys.old keys.new) }
{
    claim_in(alloc, keys, b"clockport ".as_slice(), cell, port)
}

/// The key of a `defaultclock` line.
fn claim_defaultclock(alloc: Global, keys: &mut Names) -> Result<Option<Text>, NoMemory>
    ensures { IfOk result (Claims (key [] (codes "defaultclock") ∷ []) keys.old keys.new) }
{
    let word = Text::from_bytes(alloc, b"defaultclock".as_slice())?;
    claim_word(alloc, keys, b"".as_slice(), &word)
}

/// The key of a `scale` line.
fn claim_scale(alloc: Global, keys: &mut Names) -> Result<Option<Text>, NoMemory>
    ensures { IfOk result (Claims (key [] (codes "scale") ∷ []) keys.old keys.new) }
{
    let word = Text::from_bytes(alloc, b"scale".as_slice())?;
    claim_word(alloc, keys, b"".as_slice(), &word)
}

/// Adds the keys of a line, up to the first that is there, whose last word is answered.
pub fn claim_keys(alloc: Global, keys: &mut Names, entry: &Entry) -> Result<Option<Text>, NoMemory>
    ensures { IfOk result (Claims (keys_of entry.now) keys.old keys.new) }
{
    match entry {
        Entry::ScaleLine { .. } => claim_scale(alloc, keys),
        Entry::SupplyLine { nets, .. } => { claim_words(alloc, keys, b"supply ".as_slice(), nets) }
        Entry::DeviceLine { model, .. } => { claim_word(alloc, keys, b"device ".as_slice(), model) }
        Entry::StrengthLine { cell, device, .. } => claim_strength(alloc, keys, cell, device),
        Entry::ClockLine { names } => { claim_words(alloc, keys, b"clock ".as_slice(), names) }
        Entry::PhaseLine { name, bits } => claim_phase(alloc, keys, name, bits.as_slice()),
        Entry::ClockportLine { cell, port, .. } => claim_clockport(alloc, keys, cell, port),
        Entry::DefaultclockLine { .. } => claim_defaultclock(alloc, keys),
        Entry::PairLine { cell, .. } => claim_word(alloc, keys, b"pair ".as_slice(), cell),
        Entry::PortLine { cell, port, .. } => {
            claim_in(alloc, keys, b"port ".as_slice(), cell, port)
        }
        Entry::HoldLine { cell, net, .. } => {
            claim_in(alloc, keys, b"hold ".as_slice(), cell, net)
        }
        Entry::KeeperLine { cell, devices } => { claim_devices(alloc, keys, cell, devices) }
        Entry::MatchLine { cell, net, .. } => {
            claim_in(alloc, keys, b"match ".as_slice(), cell, net)
        }
        Entry::InstanceMatchLine {
            cell,
            instance,
            inner,
            ..
        } => claim_within(alloc, keys, b"match ".as_slice(), cell, instance, inner),
        Entry::EnterLine {
            cell,
            phase,
            net,
            ..
        } => claim_within(alloc, keys, b"enter ".as_slice(), cell, phase, net),
        Entry::ObserveLine { cell, port, .. } => {
            claim_in(alloc, keys, b"observe ".as_slice(), cell, port)
        }
        Entry::AssumeLine { .. } => Ok(None),
    }
}
