//! A line of a refusal, piece by piece.

ghost use Rattle.std.specs.Prelude.{◌≡◌, ◌∷◌, [], codes, map, IfOk};
ghost use Rattle.refusal_lines.specs.Lines.{joined, refusal_line};

use std::alloc::Global;
use vrt_model::{NoMemory, Text};
use witness::decimal_text;

/// Pieces, one behind the other.
pub fn join(alloc: Global, pieces: &[&[u8]]) -> Result<Text, NoMemory>
    ensures { IfOk result (λ text. text ≡ joined (map (λ x. x.now) pieces.now)) }
{
    let mut text = Text::new(alloc);
    for piece in pieces {
        text.extend(piece)?;
    }
    Ok(text)
}

/// A refusal with its line number in decimal.
fn refusal_with<'a>(
    alloc: Global,
    file: &'a [u8],
    number: &'a [u8],
    cause: &'a [u8],
    name: &'a [u8],
) -> Result<Text, NoMemory>
    ensures { IfOk result (λ text. text ≡ joined (codes "verity: " ∷ file.entry.now ∷ codes " line " ∷ number.entry.now ∷ codes ": " ∷ cause.entry.now ∷ name.entry.now ∷ codes "\n" ∷ [])) }
{
    let pieces = [
        b"verity: ".as_slice(),
        file,
        b" line ".as_slice(),
        number,
        b": ".as_slice(),
        cause,
        name,
        b"\n".as_slice(),
    ];
    join(alloc, &pieces)
}

/// The line for a refusal: the file, the line, and the text of the cause in two pieces.
pub fn refusal(
    alloc: Global,
    file: &[u8],
    line: u32,
    cause: &[u8],
    name: &[u8],
) -> Result<Text, NoMemory>
    ensures { IfOk result (λ text. text ≡ refusal_line file.now line cause.now name.now) }
{
    let number = decimal_text(alloc, u64::from(line))?;
    refusal_with(alloc, file, number.as_bytes(), cause, name)
}

/// The line for a refusal whose cause has no name.
pub fn plain(alloc: Global, file: &[u8], line: u32, cause: &[u8]) -> Result<Text, NoMemory>
    ensures { IfOk result (λ text. text ≡ refusal_line file.now line cause.now []) }
{
    refusal(alloc, file, line, cause, b"")
}

/// The line for a refusal whose cause ends with a name.
pub fn named(
    alloc: Global,
    file: &[u8],
    line: u32,
    cause: &[u8],
    name: &Text,
) -> Result<Text, NoMemory>
    ensures { IfOk result (λ text. text ≡ refusal_line file.now line cause.now name.now) }
{
    refusal(alloc, file, line, cause, name.as_bytes())
}
