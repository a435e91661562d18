//! The lines of a text that are not passed over, one by one.

ghost use Rattle.std.specs.Prelude.{◌≡◌, ◌≤◌, ◌<◌, ◌+◌, ◌^◌, length, IfOk};
ghost use Rattle.text_lines.specs.Reading.{ComesFirst};
ghost use Rattle.rules_reader.specs.Entries.{card_of, cards_left, is_passed_over};

use rules_lines::{Entry, read_entry};
use std::alloc::Global;
use text_lines::{begins_with, first_line, is_blank_line, is_text_line};
use vrt_model::NoMemory;

/// A line: its number, from 1, whether all its bytes are text, and what it says, none where it does not fit.
pub struct Card {
    /// The number of the line, from 1.
    pub line: u32,
    /// Whether each byte is a tab or from the space to the tilde.
    pub is_all_text: bool,
    /// What the line says, none where it does not fit.
    pub entry: Option<Entry>,
}

/// By hand, so that letting go of one is a call.
impl Drop for Card {
    fn drop(self) {
        let Card {
            line: _line,
            is_all_text: _is_all_text,
            entry: _entry,
        } = self;
    }
}

/// Whether a line is blank, or its first byte that is no blank is `#`.
fn is_passed(line: &[u8]) -> bool
    ensures { result ≡ is_passed_over line.now }
{
    is_blank_line(line) || begins_with(b'#', line)
}

/// The card of a line.
fn read_card(alloc: Global, line: u32, bytes: &[u8]) -> Result<Card, NoMemory>
    ensures { IfOk result (λ card. card ≡ card_of (line, bytes.now)) }
{
    let entry = read_entry(alloc, bytes)?;
    Ok(Card {
        line,
        is_all_text: is_text_line(bytes),
        entry,
    })
}

/// A text as it is read from the front. Nothing is kept of what is read.
#[derive(Drop)]
pub struct Reading<'a> {
    /// The number of the next line, from 1.
    pub number: u32,
    /// The lines that are not read yet.
    pub bytes: &'a [u8],
}

/// The card of the next line that is not passed over, none behind the last.
pub fn next_card(alloc: Global, reading: &mut Reading) -> Result<Option<Card>, NoMemory>
    requires { reading.old.number + length reading.old.bytes.now < 2 ^ 32 }
    ensures card { IfOk result (λ card. ComesFirst card (cards_left reading.old.number reading.old.bytes.now) (cards_left reading.new.number reading.new.bytes.now)) }
    ensures room { reading.new.number + length reading.new.bytes.now ≤ reading.old.number + length reading.old.bytes.now }
{
    'lines: while let Some((line, behind)) = first_line(reading.bytes) {
        let number = reading.number;
        reading.number = number + 1;
        reading.bytes = behind;
        if !is_passed(line) {
            let card = read_card(alloc, number, line)?;
            return Ok(Some(card));
        }
    }
    Ok(None)
}
