//! Lines on clocks, of a few words, and what a line of a few words says by its first.

ghost use Rattle.std.specs.Prelude.{◌≡◌, IfOk};
ghost use Rattle.text_lines.specs.Bytes.{lowered};
ghost use Rattle.rules_lines.specs.Words.{signed};
ghost use Rattle.rules_lines.specs.Lines.{clockport_entry, defaultclock_entry, enter_entry};
ghost use Rattle.rules_lines.specs.Long.{short_entry};

use crate::circuit_lines::{device, hold, matching, pair, port, scaling, strength};
use crate::entry::{Entry, Signed};
use crate::words::{bit, lower, lower_two, sign_off};
use std::alloc::Global;
use vrt_model::{NoMemory, Text};

/// A clock, lowered, with or without `!`.
fn lowered_sign(alloc: Global, clock: &Text) -> Result<Signed, NoMemory>
    ensures { IfOk result (λ s. s ≡ signed (lowered clock.now)) }
{
    let clock = lower(alloc, clock.as_bytes())?;
    sign_off(alloc, clock.as_bytes())
}

/// `clockport CELL PORT [!]CLOCK`
fn clockport(alloc: Global, words: &[Text]) -> Result<Option<Entry>, NoMemory>
    ensures { IfOk result (λ entry. entry ≡ clockport_entry words.now) }
{
    match words {
        [cell, port, clock] => {
            let clock = lowered_sign(alloc, clock)?;
            let (cell, port) = lower_two(alloc, cell, port)?;
            Ok(Some(Entry::ClockportLine { cell, port, clock }))
        }
        _ => Ok(None),
    }
}

/// `defaultclock CLOCK`
fn defaultclock(alloc: Global, words: &[Text]) -> Result<Option<Entry>, NoMemory>
    ensures { IfOk result (λ entry. entry ≡ defaultclock_entry words.now) }
{
    match words {
        [clock] => Ok(Some(Entry::DefaultclockLine {
            clock: lower(alloc, clock.as_bytes())?,
        })),
        _ => Ok(None),
    }
}

/// `enter CELL PHASE NET BIT`
fn enter(alloc: Global, words: &[Text]) -> Result<Option<Entry>, NoMemory>
    ensures { IfOk result (λ entry. entry ≡ enter_entry words.now) }
{
    match words {
        [cell, phase, net, value] => {
            let net = lower(alloc, net.as_bytes())?;
            let (cell, phase) = lower_two(alloc, cell, phase)?;
            let bit = bit(value.as_bytes());
            Ok(Some(Entry::EnterLine {
                cell,
                phase,
                net,
                bit,
            }))
        }
        _ => Ok(None),
    }
}

/// What a line says that has no list of words.
pub fn read_short(alloc: Global, word: &[u8], rest: &[Text]) -> Result<Option<Entry>, NoMemory>
    ensures { IfOk result (λ entry. entry ≡ short_entry word.now rest.now) }
{
    if word == b"scale".as_slice() {
        return Ok(scaling(rest));
    }
    if word == b"device".as_slice() {
        return device(alloc, rest);
    }
    if word == b"strength".as_slice() {
        return strength(alloc, rest);
    }
    if word == b"pair".as_slice() {
        return pair(alloc, rest);
    }
    if word == b"port".as_slice() {
        return port(alloc, rest);
    }
    if word == b"hold".as_slice() {
        return hold(alloc, rest);
    }
    if word == b"match".as_slice() {
        return matching(alloc, rest);
    }
    if word == b"clockport".as_slice() {
        return clockport(alloc, rest);
    }
    if word == b"defaultclock".as_slice() {
        return defaultclock(alloc, rest);
    }
    if word == b"enter".as_slice() {
        return enter(alloc, rest);
    }
    Ok(None)
}
