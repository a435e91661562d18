//! The lines.

ghost use Rattle.std.specs.Prelude.{◌≡◌, ◌∷◌, ◌++◌, [], ℕ, List, codes, map, IfOk, OnOk};
ghost use Rattle.std.specs.List.{concat};
ghost use Rattle.arrival_lines.specs.LineTexts.{budget_line, many_line, no_line, step_names, yes_line};

use crate::settings::add_valuation;
use std::alloc::Global;
use vrt_model::{NoMemory, Seq, Text};
use witness::decimal_text;

/// Pieces, one behind the other.
fn join(alloc: Global, pieces: &[&[u8]]) -> Result<Text, NoMemory>
    ensures { IfOk result (λ text. text ≡ concat (map (λ x. x.now) pieces.now)) }
{
    let mut text = Text::new(alloc);
    for piece in pieces {
        text.extend(piece)?;
    }
    Ok(text)
}

/// The line where it goes well in each order.
pub(crate) fn yes_line<'a>(alloc: Global, cell: &'a [u8], phase: &'a [u8]) -> Result<Text, NoMemory>
    ensures { IfOk result (λ text. text ≡ yes_line cell.entry.now phase.entry.now) }
{
    let pieces = [
        b"arrive ".as_slice(),
        cell,
        b" phase ".as_slice(),
        phase,
        b" yes\n".as_slice(),
    ];
    join(alloc, &pieces)
}

/// The beginning of the line where it does not go well at a port.
fn no_front<'a>(
    alloc: Global,
    cell: &'a [u8],
    phase: &'a [u8],
    port: &'a [u8],
) -> Result<Text, NoMemory>
    ensures { IfOk result (λ text. text ≡ concat (codes "arrive " ∷ cell.entry.now ∷ codes " phase " ∷ phase.entry.now ∷ codes " no " ∷ port.entry.now ∷ codes " at" ∷ [])) }
{
    let pieces = [
        b"arrive ".as_slice(),
        cell,
        b" phase ".as_slice(),
        phase,
        b" no ".as_slice(),
        port,
        b" at".as_slice(),
    ];
    join(alloc, &pieces)
}

/// The line where it does not go well at a port, at these bits.
pub(crate) fn no_line(
    alloc: Global,
    cell: &[u8],
    phase: &[u8],
    port: &[u8],
    names: &[Text],
    bits: &[bool],
) -> Result<Text, NoMemory>
    ensures { IfOk result (λ text. text ≡ no_line cell.now phase.now port.now names.now bits.now) }
{
    let mut line = no_front(alloc, cell, phase, port)?;
    add_valuation(&mut line, names, bits)?;
    line.extend(b"\n")?;
    Ok(line)
}

/// The line of too many variables.
pub(crate) fn many_line(alloc: Global, cell: &[u8], count: u32) -> Result<Text, NoMemory>
    ensures { IfOk result (λ text. text ≡ many_line cell.now count) }
{
    let count = decimal_text(alloc, u64::from(count))?;
    many_text(alloc, cell, count.as_bytes())
}

/// The same with the number as a text.
fn many_text<'a>(alloc: Global, cell: &'a [u8], count: &'a [u8]) -> Result<Text, NoMemory>
    ensures { IfOk result (λ text. text ≡ concat (codes "arrive " ∷ cell.entry.now ∷ codes " variables " ∷ count.entry.now ∷ codes "\n" ∷ [])) }
{
    let pieces = [
        b"arrive ".as_slice(),
        cell,
        b" variables ".as_slice(),
        count,
        b"\n".as_slice(),
    ];
    join(alloc, &pieces)
}

/// The line of a budget that is used up.
pub(crate) fn budget_line(
    alloc: Global,
    cell: &[u8],
    phase: &[u8],
    nodes: u32,
) -> Result<Text, NoMemory>
    ensures { IfOk result (λ text. text ≡ budget_line cell.now phase.now nodes) }
{
    let nodes = decimal_text(alloc, u64::from(nodes))?;
    budget_text(alloc, cell, phase, nodes.as_bytes())
}

/// The same with the number as a text.
fn budget_text<'a>(
    alloc: Global,
    cell: &'a [u8],
    phase: &'a [u8],
    nodes: &'a [u8],
) -> Result<Text, NoMemory>
    ensures { IfOk result (λ text. text ≡ concat (codes "arrive " ∷ cell.entry.now ∷ codes " budget " ∷ nodes.entry.now ∷ codes " phase " ∷ phase.entry.now ∷ codes "\n" ∷ [])) }
{
    let pieces = [
        b"arrive ".as_slice(),
        cell,
        b" budget ".as_slice(),
        nodes,
        b" phase ".as_slice(),
        phase,
        b"\n".as_slice(),
    ];
    join(alloc, &pieces)
}

/// A name, with a plus sign where the bit says whether a port has arrived.
fn copied(alloc: Global, name: &[u8], behind: &[u8]) -> Result<Text, NoMemory>
    ensures { IfOk result (λ text. text ≡ name.now ++ behind.now) }
{
    let mut text = Text::from_bytes(alloc, name)?;
    text.extend(behind)?;
    Ok(text)
}

/// Adds names, each with this behind it.
fn add_names(
    alloc: Global,
    names: &mut Seq<Text>,
    more: &[Text],
    behind: &[u8],
) -> Result<(), NoMemory>
    ensures { OnOk result (names.new ≡ names.old ++ map (λ (name : List ℕ). name ++ behind.now) more.now) }
{
    for name in more {
        let copy = copied(alloc, name.as_bytes(), behind)?;
        names.append(copy)?;
    }
    Ok(())
}

/// The names of a step's bits: the variables of the phase, and each port that rises with a plus sign.
pub(crate) fn step_names(
    alloc: Global,
    variables: &[Text],
    rising: &[Text],
) -> Result<Seq<Text>, NoMemory>
    ensures { IfOk result (λ names. names ≡ step_names variables.now rising.now) }
{
    let mut names = Seq::new(alloc);
    add_names(alloc, &mut names, variables, b"")?;
    add_names(alloc, &mut names, rising, b"+")?;
    Ok(names)
}
