//! On which lines signals are driven and used.

ghost use Rattle.std.specs.Prelude.{◌≡◌, ◌++◌, ◌∷◌, ◌&&◌, ◌||◌, [], ℕ, List, not, nat_lt, length, replicate, IfOk};
ghost use Rattle.blif_checks.specs.Notes.{AreNotes, IsNote, is_by, no_note};
ghost use Rattle.blif_checks.specs.declared.mentions.Mention.{Mention as MentionValue};

use crate::mentions::Mention;
use std::alloc::Global;
use vrt_model::NoMemory;

/// The two least lines on which a signal is driven, and the least on which it is used.
#[derive(Clone, Copy)]
pub(crate) struct Note {
    pub(crate) first: Option<u32>,
    pub(crate) second: Option<u32>,
    pub(crate) used: Option<u32>,
}

/// The least of a line and another, if there is one.
fn least(other: Option<u32>, line: u32) -> Option<u32>
    ensures { (l : ℕ) → is_by result l ≡ (is_by other l || not (nat_lt l line)) }
{
    match other {
        Some(other) if other <= line => Some(other),
        _ => Some(line),
    }
}

/// The greater of a line and another, if there is one.
fn greater(other: Option<u32>, line: u32) -> Option<u32>
    ensures { (l : ℕ) → is_by result l ≡ (is_by other l && not (nat_lt l line)) }
{
    match other {
        Some(other) if line <= other => Some(other),
        Some(_) => Some(line),
        None => None,
    }
}

/// The least of two lines, if there are any.
fn least_of(a: Option<u32>, b: Option<u32>) -> Option<u32>
    ensures { (l : ℕ) → is_by result l ≡ (is_by a l || is_by b l) }
{
    match b {
        Some(line) => least(a, line),
        None => a,
    }
}

impl Note {
    /// With one driver more.
    fn driven(self, line: u32) -> Note
        ensures { (driven used : List ℕ) → IsNote self driven used → IsNote result (driven ++ line ∷ []) used }
    {
        Note {
            first: least(self.first, line),
            second: least_of(self.second, greater(self.first, line)),
            used: self.used,
        }
    }

    /// With one use more.
    fn used(self, line: u32) -> Note
        ensures { (driven used : List ℕ) → IsNote self driven used → IsNote result driven (used ++ line ∷ []) }
    {
        Note {
            first: self.first,
            second: self.second,
            used: least(self.used, line),
        }
    }
}

/// Notes a driver.
fn note_driver(notes: &mut Vec<Note>, mention: Mention)
    ensures notes { (drivers uses : List MentionValue) → AreNotes notes.old.items drivers uses → AreNotes notes.new.items (drivers ++ mention ∷ []) uses }
    ensures count { length notes.new.items ≡ length notes.old.items }
{
    if mention.signal < notes.len() {
        notes[mention.signal] = notes[mention.signal].driven(mention.line);
    }
}

/// Notes a use.
fn note_use(notes: &mut Vec<Note>, mention: Mention)
    ensures notes { (drivers uses : List MentionValue) → AreNotes notes.old.items drivers uses → AreNotes notes.new.items drivers (uses ++ mention ∷ []) }
    ensures count { length notes.new.items ≡ length notes.old.items }
{
    if mention.signal < notes.len() {
        notes[mention.signal] = notes[mention.signal].used(mention.line);
    }
}

/// Notes of signals that are neither driven nor used.
fn no_notes(alloc: Global, count: usize) -> Result<Vec<Note>, NoMemory>
    ensures { IfOk result (λ notes. notes.items ≡ replicate count no_note) }
{
    let none = Note {
        first: None,
        second: None,
        used: None,
    };
    match vec![in alloc; none; count] {
        Ok(notes) => Ok(notes),
        Err(_) => Err(NoMemory),
    }
}

/// The notes of as many signals.
pub(crate) fn notes_of(
    alloc: Global,
    count: usize,
    drivers: &[Mention],
    uses: &[Mention],
) -> Result<Vec<Note>, NoMemory>
    ensures notes { IfOk result (λ notes. AreNotes notes.items drivers.now uses.now) }
    ensures count { IfOk result (λ notes. length notes.items ≡ count) }
{
    let mut notes = no_notes(alloc, count)?;
    for driver in drivers {
        note_driver(&mut notes, *driver);
    }
    for used in uses {
        note_use(&mut notes, *used);
    }
    Ok(notes)
}
