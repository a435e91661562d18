//! Lines with a list of words, and what each line says by its first word.

ghost use Rattle.std.specs.Prelude.{◌≡◌, ◌<◌, ◌++◌, ◌∷◌, [], length, map, option_map, if◌then◌else◌, None, IfOk, IfSome, IfNone, OnOk};
ghost use Rattle.std.specs.List.{list_all};
ghost use Rattle.text_lines.specs.Bytes.{lowered, words_of};
ghost use Rattle.vrt_model.specs.Lists.{is_empty};
ghost use Rattle.rules_lines.specs.declared.entry.Entry.TheVariants.{SupplyLine};
ghost use Rattle.rules_lines.specs.Lines.{assume_entry, assumed_phase, clock_bit, clock_entry, entry_by, entry_of, has_equals, keeper_entry, observe_entry, phase_entry, supply_entry};
ghost use Rattle.rules_lines.specs.Long.{is_long, long_entry, short_entry};

use crate::clocked_lines::read_short;
use crate::entry::{ClockBit, Entry};
use crate::words::{bit, cut, lower};
use rules_expression::Tokens;
use std::alloc::Global;
use text_lines::{WordList, count_words, first_word, has_byte, line_words};
use vrt_model::{NoMemory, Seq, Text};

/// Whether a line has no word.
fn is_wordless(line: &[u8]) -> bool
    ensures { result ≡ is_empty (words_of line.now) }
{
    match first_word(line) {
        Some(_) => false,
        None => true,
    }
}

/// The first two words and what is behind them. None where there are fewer.
fn first_two(line: &[u8]) -> Option<(&[u8], &[u8], &[u8])>
    ensures words { IfSome result (λ p. words_of line.now ≡ p.0.now ∷ p.1.now ∷ words_of p.2.now) }
    ensures none { IfNone result (length (words_of line.now) < 2) }
{
    let (first, rest) = first_word(line)?;
    let (second, behind) = first_word(rest)?;
    Some((first, second, behind))
}

/// Nets of a supply of this value, none where there is no net or no value.
fn supply_of(alloc: Global, value: Option<bool>, nets: &[u8]) -> Result<Option<Entry>, NoMemory>
    ensures { IfOk result (λ entry. entry ≡ (if is_empty (words_of nets.now) then None else option_map (λ v. SupplyLine v (map lowered (words_of nets.now))) value)) }
{
    if is_wordless(nets) {
        return Ok(None);
    }
    match value {
        Some(value) => Ok(Some(Entry::SupplyLine {
            value,
            nets: WordList::lowered(alloc, nets)?,
        })),
        None => Ok(None),
    }
}

/// `supply 0 NET..`, `supply 1 NET..`
fn supply(alloc: Global, rest: &[u8]) -> Result<Option<Entry>, NoMemory>
    ensures { IfOk result (λ entry. entry ≡ supply_entry (words_of rest.now)) }
{
    match first_word(rest) {
        Some((value, nets)) => supply_of(alloc, bit(value), nets),
        None => Ok(None),
    }
}

/// `keeper CELL DEV..`
fn keeper(alloc: Global, rest: &[u8]) -> Result<Option<Entry>, NoMemory>
    ensures { IfOk result (λ entry. entry ≡ keeper_entry (words_of rest.now)) }
{
    let Some((cell, devices)) = first_word(rest) else {
        return Ok(None);
    };
    if is_wordless(devices) {
        return Ok(None);
    }
    let devices = WordList::lowered(alloc, devices)?;
    let cell = lower(alloc, cell)?;
    Ok(Some(Entry::KeeperLine { cell, devices }))
}

/// `clock NAME..`
fn clock(alloc: Global, rest: &[u8]) -> Result<Option<Entry>, NoMemory>
    ensures { IfOk result (λ entry. entry ≡ clock_entry (words_of rest.now)) }
{
    if is_wordless(rest) {
        return Ok(None);
    }
    Ok(Some(Entry::ClockLine {
        names: WordList::lowered(alloc, rest)?,
    }))
}

/// `CLOCK=BIT`, cut at its first `=`.
fn clock_bit_of(alloc: Global, word: &[u8]) -> Result<ClockBit, NoMemory>
    ensures { IfOk result (λ b. b ≡ clock_bit word.now) }
{
    match cut(alloc, b'=', word)? {
        Some((clock, value)) => Ok(ClockBit {
            clock: lower(alloc, clock.as_bytes())?,
            bit: bit(value.as_bytes()),
        }),
        None => Ok(ClockBit {
            clock: Text::new(alloc),
            bit: None,
        }),
    }
}

/// Adds the bit of a clock.
fn add_bit(alloc: Global, bits: &mut Seq<ClockBit>, word: &[u8]) -> Result<(), NoMemory>
    ensures { OnOk result (bits.new ≡ bits.old ++ clock_bit word.now ∷ []) }
{
    let one = clock_bit_of(alloc, word)?;
    bits.append(one)
}

fn clock_bits(alloc: Global, line: &[u8]) -> Result<Seq<ClockBit>, NoMemory>
    ensures { IfOk result (λ bits. bits ≡ map clock_bit (words_of line.now)) }
{
    let mut bits = Seq::new(alloc);
    let mut rest = line;
    'words: while let Some((word, behind)) = first_word(rest) {
        add_bit(alloc, &mut bits, word)?;
        rest = behind;
    }
    Ok(bits)
}

fn all_have_equals(line: &[u8]) -> bool
    ensures { result ≡ list_all has_equals (words_of line.now) }
{
    let mut rest = line;
    'words: while let Some((word, behind)) = first_word(rest) {
        if !has_byte(b'=', word) {
            return false;
        }
        rest = behind;
    }
    true
}

/// `phase NAME CLOCK=BIT..`
fn phase(alloc: Global, rest: &[u8]) -> Result<Option<Entry>, NoMemory>
    ensures { IfOk result (λ entry. entry ≡ phase_entry (words_of rest.now)) }
{
    let Some((name, bits)) = first_word(rest) else {
        return Ok(None);
    };
    if is_wordless(bits) || !all_have_equals(bits) {
        return Ok(None);
    }
    let bits = clock_bits(alloc, bits)?;
    let name = lower(alloc, name)?;
    Ok(Some(Entry::PhaseLine { name, bits }))
}

/// Phases of a port, none where there is no phase.
fn observe_of(
    alloc: Global,
    cell: &[u8],
    port: &[u8],
    phases: &[u8],
) -> Result<Option<Entry>, NoMemory>
    ensures { IfOk result (λ entry. entry ≡ observe_entry (cell.now ∷ port.now ∷ words_of phases.now)) }
{
    if is_wordless(phases) {
        return Ok(None);
    }
    let phases = WordList::lowered(alloc, phases)?;
    let port = lower(alloc, port)?;
    let cell = lower(alloc, cell)?;
    Ok(Some(Entry::ObserveLine { cell, port, phases }))
}

/// `observe CELL PORT PHASE..`
fn observe(alloc: Global, rest: &[u8]) -> Result<Option<Entry>, NoMemory>
    ensures { IfOk result (λ entry. entry ≡ observe_entry (words_of rest.now)) }
{
    match first_two(rest) {
        Some((cell, port, phases)) => observe_of(alloc, cell, port, phases),
        None => Ok(None),
    }
}

/// The phase of an `assume` line, none for `*`.
fn assumed(alloc: Global, phase: &[u8]) -> Result<Option<Text>, NoMemory>
    ensures { IfOk result (λ found. found ≡ assumed_phase phase.now) }
{
    if phase == b"*".as_slice() {
        return Ok(None);
    }
    let phase = lower(alloc, phase)?;
    Ok(Some(phase))
}

/// An expression that is assumed, none where there is no word of it.
fn assume_of(
    alloc: Global,
    cell: &[u8],
    phase: &[u8],
    expression: &[u8],
) -> Result<Option<Entry>, NoMemory>
    ensures { IfOk result (λ entry. entry ≡ assume_entry (cell.now ∷ phase.now ∷ words_of expression.now)) }
{
    if is_wordless(expression) {
        return Ok(None);
    }
    let tokens = Tokens::of_line(alloc, expression)?;
    let phase = assumed(alloc, phase)?;
    let cell = lower(alloc, cell)?;
    Ok(Some(Entry::AssumeLine {
        cell,
        phase,
        tokens,
    }))
}

/// `assume CELL PHASE EXPR`, `assume CELL * EXPR`
fn assume(alloc: Global, rest: &[u8]) -> Result<Option<Entry>, NoMemory>
    ensures { IfOk result (λ entry. entry ≡ assume_entry (words_of rest.now)) }
{
    match first_two(rest) {
        Some((cell, phase, expression)) => assume_of(alloc, cell, phase, expression),
        None => Ok(None),
    }
}

/// Whether a line with this first word has a list of words.
fn has_list(word: &[u8]) -> bool
    ensures { result ≡ is_long word.now }
{
    word == b"supply".as_slice()
        || word == b"keeper".as_slice()
        || word == b"clock".as_slice()
        || word == b"phase".as_slice()
        || word == b"observe".as_slice()
        || word == b"assume".as_slice()
}

/// What a line says that has a list of words.
fn read_long(alloc: Global, word: &[u8], rest: &[u8]) -> Result<Option<Entry>, NoMemory>
    ensures { IfOk result (λ entry. entry ≡ long_entry word.now (words_of rest.now)) }
{
    if word == b"supply".as_slice() {
        return supply(alloc, rest);
    }
    if word == b"keeper".as_slice() {
        return keeper(alloc, rest);
    }
    if word == b"clock".as_slice() {
        return clock(alloc, rest);
    }
    if word == b"phase".as_slice() {
        return phase(alloc, rest);
    }
    if word == b"observe".as_slice() {
        return observe(alloc, rest);
    }
    if word == b"assume".as_slice() {
        return assume(alloc, rest);
    }
    Ok(None)
}

/// What a line says that has no list of words: nothing, where it has more than four behind the first.
fn read_few(alloc: Global, word: &[u8], rest: &[u8]) -> Result<Option<Entry>, NoMemory>
    ensures { IfOk result (λ entry. entry ≡ short_entry word.now (words_of rest.now)) }
{
    if count_words(rest) > 4 {
        return Ok(None);
    }
    let words = line_words(alloc, rest)?;
    read_short(alloc, word, words.as_slice())
}

/// What a line says by its first word and what is behind it.
fn read_by(alloc: Global, word: &[u8], rest: &[u8]) -> Result<Option<Entry>, NoMemory>
    ensures { IfOk result (λ entry. entry ≡ entry_by word.now (words_of rest.now)) }
{
    if has_list(word) {
        return read_long(alloc, word, rest);
    }
    read_few(alloc, word, rest)
}

/// What a line says by its words. None where the first word is unknown, the number of words is wrong, or a value is
/// none of those listed.
#[tactic(auto, unfolding(crate::specs::Lines::entry_of))]
pub fn read_entry(alloc: Global, line: &[u8]) -> Result<Option<Entry>, NoMemory>
    ensures { IfOk result (λ entry. entry ≡ entry_of (words_of line.now)) }
{
    match first_word(line) {
        Some((word, rest)) => read_by(alloc, word, rest),
        None => Ok(None),
    }
}
