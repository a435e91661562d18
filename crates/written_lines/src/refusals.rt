//! The line of a refusal.

ghost use Rattle.std.specs.Prelude.{◌≡◌, ◌≢◌, map, IfOk};
ghost use Rattle.std.specs.List.{concat};
ghost use Rattle.cell_writer.specs.declared.refusal.WriteRefusal.TheVariants.{NoMemory as IsNoMemory};
ghost use Rattle.std.specs.Fmt.{decimal};
ghost use Rattle.written_lines.specs.Lines.{cause_line, refusal_line};

use cell_writer::WriteRefusal;
use std::alloc::Global;
use vrt_model::{NoMemory, Text};
use witness::decimal_text;

/// Pieces, one behind the other.
fn join(alloc: Global, pieces: &[&[u8]]) -> Result<Text, NoMemory>
    ensures { IfOk result (λ text. text ≡ concat (map (λ x. x.now) pieces.now)) }
{
    let mut text = Text::new(alloc);
    for piece in pieces {
        text.extend(piece)?;
    }
    Ok(text)
}

/// The line of a cause, with what it names.
fn cause_line<'a>(
    alloc: Global,
    cell: &'a [u8],
    cause: &'a [u8],
    named: &'a [u8],
) -> Result<Text, NoMemory>
    ensures { IfOk result (λ line. line ≡ cause_line cell.entry.now cause.entry.now named.entry.now) }
{
    let pieces = [
        b"blif ".as_slice(),
        cell,
        b" ".as_slice(),
        cause,
        b" ".as_slice(),
        named,
        b"\n".as_slice(),
    ];
    join(alloc, &pieces)
}

/// The same with a number.
fn number_line(alloc: Global, cell: &[u8], cause: &[u8], number: u64) -> Result<Text, NoMemory>
    ensures { IfOk result (λ line. line ≡ cause_line cell.now cause.now (decimal number)) }
{
    let number = decimal_text(alloc, number)?;
    cause_line(alloc, cell, cause, number.as_bytes())
}

/// The line of a refusal of a cell of a name; want of memory has none.
pub(crate) fn refusal_line(
    alloc: Global,
    cell: &[u8],
    refusal: &WriteRefusal,
) -> Result<Text, NoMemory>
    ensures line { IfOk result (λ line. line ≡ refusal_line cell.now refusal.now) }
    ensures had { IfOk result (λ _. refusal.now ≢ IsNoMemory) }
{
    match refusal {
        WriteRefusal::Hold { net } => cause_line(alloc, cell, b"hold", net.as_bytes()),
        WriteRefusal::Clock { port } => cause_line(alloc, cell, b"clock", port.as_bytes()),
        WriteRefusal::Name { name } => cause_line(alloc, cell, b"name", name.as_bytes()),
        WriteRefusal::Budget { nodes } => { number_line(alloc, cell, b"budget", u64::from(*nodes)) }
        WriteRefusal::Large { count } => number_line(alloc, cell, b"large", *count),
        WriteRefusal::Long { bytes } => number_line(alloc, cell, b"long", *bytes),
        WriteRefusal::NoMemory => Err(NoMemory),
    }
}
