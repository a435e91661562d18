//! A text line by line.

ghost use Rattle.std.specs.Prelude.{◌≡◌, ◌<◌, ◌∷◌, ◌++◌, [], length, IfNone, IfOk, IfSome, OnOk};
ghost use Rattle.text_lines.specs.Bytes.{kept};
ghost use Rattle.written_lines.specs.Lines.{lines_in};

use std::alloc::Global;
use text_lines::first_place;
use vrt_model::{NoMemory, Seq, Text};

/// What stands before the first line feed, and what is behind it; none where there is no line feed.
fn cut_part(text: &[u8]) -> Option<(&[u8], &[u8])>
    ensures cut { IfSome result (λ p. (length p.1.now < length text.now) × (lines_in text.now ≡ (p.0.now ++ 10 ∷ []) ∷ lines_in p.1.now)) }
    ensures last { IfNone result (lines_in text.now ≡ kept text.now) }
{
    match first_place(b'\n', text) {
        Some(count) => Some((&text[..count], &text[count + 1..])),
        None => None,
    }
}

/// A part of a text with a line feed behind it.
fn ended(alloc: Global, part: &[u8]) -> Result<Text, NoMemory>
    ensures { IfOk result (λ line. line ≡ part.now ++ 10 ∷ []) }
{
    let mut line = Text::from_bytes(alloc, part)?;
    line.extend(b"\n")?;
    Ok(line)
}

/// Adds a line, a part of a text with a line feed behind it.
fn add_line(lines: &mut Seq<Text>, alloc: Global, part: &[u8]) -> Result<(), NoMemory>
    ensures { OnOk result (lines.new ≡ lines.old ++ (part.now ++ 10 ∷ []) ∷ []) }
{
    let line = ended(alloc, part)?;
    lines.append(line)
}

/// Adds what is behind the last line feed, if it has a byte.
fn add_rest(lines: &mut Seq<Text>, alloc: Global, rest: &[u8]) -> Result<(), NoMemory>
    ensures { OnOk result (lines.new ≡ lines.old ++ kept rest.now) }
{
    if rest.is_empty() {
        return Ok(());
    }
    let line = Text::from_bytes(alloc, rest)?;
    lines.append(line)
}

/// Adds the lines of a text.
fn add_lines(lines: &mut Seq<Text>, alloc: Global, text: &[u8]) -> Result<(), NoMemory>
    ensures { OnOk result (lines.new ≡ lines.old ++ lines_in text.now) }
{
    let mut rest = text;
    'cuts: while let Some((part, behind)) = cut_part(rest) {
        add_line(lines, alloc, part)?;
        rest = behind;
    }
    add_rest(lines, alloc, rest)
}

/// The lines of a text, each with its line feed.
pub(crate) fn lines_in(alloc: Global, text: &[u8]) -> Result<Seq<Text>, NoMemory>
    ensures { IfOk result (λ lines. lines ≡ lines_in text.now) }
{
    let mut lines = Seq::new(alloc);
    add_lines(&mut lines, alloc, text)?;
    Ok(lines)
}
