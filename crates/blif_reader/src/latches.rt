//! The latches of a model.

ghost use Rattle.std.specs.Prelude.{◌≡◌, ◌++◌, ◌∷◌, [], None, flat_map, is_some, option_map, IfOk, OnOk};
ghost use Rattle.text_lines.specs.Bytes.{words_of};
ghost use Rattle.blif_reader.specs.Models.{control_of, end_of, init_of, is_latch, latch_end, latch_kind, latch_of, latches_in, with_kind};

use crate::cards::Card;
use crate::words::{is_latch_card, word, words_behind};
use std::alloc::Global;
use text_lines::first_word;
use vrt_model::{LatchKind, LatchLine, NoMemory, Seq, Text};

/// What is behind the input and the output of a latch: its type, its control and its initial value.
#[derive(Drop)]
pub struct LatchEnd {
    /// The TYPE: `re`, `fe`, `ah` or `al`; none where the card has no TYPE.
    pub kind: Option<LatchKind>,
    /// The name of the signal of CONTROL; none for `NIL` and where the card has no CONTROL.
    pub control: Option<Text>,
    /// INIT, 0 to 3, and 3 where the card has none.
    pub init: u8,
}

/// The type of a latch.
fn kind_of(word: &[u8]) -> Option<LatchKind>
    ensures { result ≡ latch_kind word.now }
{
    if word == b"re".as_slice() {
        return Some(LatchKind::Re);
    }
    if word == b"fe".as_slice() {
        return Some(LatchKind::Fe);
    }
    if word == b"ah".as_slice() {
        return Some(LatchKind::Ah);
    }
    if word == b"al".as_slice() {
        return Some(LatchKind::Al);
    }
    None
}

/// The initial value of a latch.
fn read_init(word: &[u8]) -> Option<u8>
    ensures { result ≡ init_of word.now }
{
    match word {
        [b] => {
            if *b == b'0' || *b == b'1' || *b == b'2' || *b == b'3' {
                Some(*b - b'0')
            } else {
                None
            }
        }
        _ => None,
    }
}

/// Whether a word and those of a line behind it are `INIT`, `TYPE CONTROL` or `TYPE CONTROL INIT`.
fn has_typed_form(kind: &[u8], line: &[u8]) -> bool
    ensures { result ≡ is_some (latch_end (kind.now ∷ words_of line.now)) }
{
    let Some((_, behind)) = first_word(line) else {
        return read_init(kind).is_some();
    };
    match first_word(behind) {
        None => kind_of(kind).is_some(),
        Some((init, more)) => {
            first_word(more).is_none() && kind_of(kind).is_some() && read_init(init).is_some()
        }
    }
}

/// Whether the words behind the output are `[TYPE CONTROL] [INIT]`.
pub fn has_latch_form(line: &[u8]) -> bool
    ensures { result ≡ is_some (latch_end (words_of line.now)) }
{
    match first_word(line) {
        None => true,
        Some((kind, behind)) => has_typed_form(kind, behind),
    }
}

/// The control of a latch.
fn read_control(alloc: Global, word: &[u8]) -> Result<Option<Text>, NoMemory>
    ensures { IfOk result (λ control. control ≡ control_of word.now) }
{
    if word == b"NIL".as_slice() {
        return Ok(None);
    }
    let text = Text::from_bytes(alloc, word)?;
    Ok(Some(text))
}

/// The end of a latch with a type.
fn read_typed(
    alloc: Global,
    kind: &[u8],
    control: &[u8],
    init: Option<u8>,
) -> Result<Option<LatchEnd>, NoMemory>
    ensures { IfOk result (λ found. found ≡ with_kind (latch_kind kind.now) control.now init) }
{
    let Some(kind) = kind_of(kind) else {
        return Ok(None);
    };
    let Some(init) = init else {
        return Ok(None);
    };
    let control = read_control(alloc, control)?;
    Ok(Some(LatchEnd {
        kind: Some(kind),
        control,
        init,
    }))
}

/// The end of a latch without a type.
fn untyped(init: u8) -> LatchEnd
    ensures { result ≡ record { kind = None; control = None; init = init } }
{
    LatchEnd {
        kind: None,
        control: None,
        init,
    }
}

/// The end of a latch of its initial value alone.
fn of_init(init: Option<u8>) -> Option<LatchEnd>
    ensures { result ≡ option_map (λ n. record { kind = None; control = None; init = n }) init }
{
    match init {
        Some(init) => Some(untyped(init)),
        None => None,
    }
}

/// The end of a latch of a word and those of a line behind it, none where they have another form.
fn read_behind(alloc: Global, kind: &[u8], line: &[u8]) -> Result<Option<LatchEnd>, NoMemory>
    ensures { IfOk result (λ found. found ≡ latch_end (kind.now ∷ words_of line.now)) }
{
    let Some((control, behind)) = first_word(line) else {
        return Ok(of_init(read_init(kind)));
    };
    match first_word(behind) {
        None => read_typed(alloc, kind, control, Some(3)),
        Some((init, more)) => {
            if first_word(more).is_some() {
                return Ok(None);
            }
            read_typed(alloc, kind, control, read_init(init))
        }
    }
}

/// The end of a latch, none where the words have another form.
fn read_end(alloc: Global, line: &[u8]) -> Result<Option<LatchEnd>, NoMemory>
    ensures { IfOk result (λ found. found ≡ latch_end (words_of line.now)) }
{
    match first_word(line) {
        None => Ok(Some(untyped(3))),
        Some((kind, behind)) => read_behind(alloc, kind, behind),
    }
}

/// The latch of a card and of its end.
fn latch(alloc: Global, card: &Card, end: LatchEnd) -> Result<LatchLine, NoMemory>
    ensures { IfOk result (λ found. found ≡ latch_of card.now end) }
{
    let (_, rest) = card.words.parts();
    let input = Text::from_bytes(alloc, word(rest, 0))?;
    let output = Text::from_bytes(alloc, word(rest, 1))?;
    Ok(LatchLine {
        line: card.line,
        input,
        output,
        kind: end.kind,
        control: end.control,
        init: end.init,
    })
}

/// Adds the latch of a card, if it is one.
fn add_latch(alloc: Global, found: &mut Seq<LatchLine>, card: &Card) -> Result<(), NoMemory>
    ensures { OnOk result (found.new ≡ found.old ++ latches_in card.now) }
{
    if !is_latch_card(card) {
        return Ok(());
    }
    let (_, rest) = card.words.parts();
    let Some(end) = read_end(alloc, words_behind(rest, 2))? else {
        return Ok(());
    };
    let one = latch(alloc, card, end)?;
    match found.push(one) {
        Ok(()) => Ok(()),
        Err(_) => Err(NoMemory),
    }
}

/// The latches of the cards of a model.
pub fn latches_of(alloc: Global, body: &[Card]) -> Result<Seq<LatchLine>, NoMemory>
    ensures { IfOk result (λ found. found ≡ flat_map latches_in body.now) }
{
    let mut found = Seq::new(alloc);
    for card in body {
        add_latch(alloc, &mut found, card)?;
    }
    Ok(found)
}
