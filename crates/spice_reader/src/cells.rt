//! The cells of cards.

ghost use Rattle.std.specs.Prelude.{◌≡◌, ◌++◌, ◌∷◌, [], map, drop, OnOk, IfOk};
ghost use Rattle.text_lines.specs.Groups.{groups, up_to};
ghost use Rattle.spice_reader.specs.Netlist.{begins_cell, ends_cell, cell_of};

use crate::card::Card;
use crate::elements::{devices, instances};
use crate::words::{name_of, opens, ports_of, shuts};
use std::alloc::Global;
use text_lines::line_words;
use vrt_model::{Cell, NoMemory, Seq, Text};

/// The cards before `.ends`.
fn before_ends(cards: &[Card]) -> &[Card]
    ensures { result.now ≡ up_to ends_cell cards.now }
{
    let mut at = 0;
    'cards: while at < cards.len() {
        if shuts(&cards[at]) {
            return &cards[..at];
        }
        at += 1;
    }
    cards
}

/// A cell of its first card and the cards before `.ends`.
fn cell(alloc: Global, first: &Card, body: &[Card]) -> Result<Cell, NoMemory>
    ensures { IfOk result (λ c. c ≡ cell_of (first.now, body.now)) }
{
    Ok(Cell {
        line: first.line,
        name: Text::from_bytes(alloc, name_of(first))?,
        ports: line_words(alloc, ports_of(first))?,
        devices: devices(alloc, body)?,
        instances: instances(alloc, body)?,
    })
}

/// Adds a cell.
fn add_cell(cells: &mut Seq<Cell>, cell: Cell) -> Result<(), NoMemory>
    ensures { OnOk result (cells.new ≡ cells.old ++ cell ∷ []) }
{
    match cells.push(cell) {
        Ok(()) => Ok(()),
        Err(_) => Err(NoMemory),
    }
}

/// Takes a card, with the cards behind it.
fn take_card(
    alloc: Global,
    cells: &mut Seq<Cell>,
    card: &Card,
    behind: &[Card],
) -> Result<(), NoMemory>
    ensures { OnOk result (cells.new ++ map cell_of (groups begins_cell ends_cell behind.now) ≡ cells.old ++ map cell_of (groups begins_cell ends_cell (card.now ∷ behind.now))) }
{
    if !opens(card) {
        return Ok(());
    }
    let one = cell(alloc, card, before_ends(behind))?;
    add_cell(cells, one)
}

/// The cells of cards.
pub fn cells_of(alloc: Global, cards: &[Card]) -> Result<Seq<Cell>, NoMemory>
    ensures { IfOk result (λ cells. cells ≡ map cell_of (groups begins_cell ends_cell cards.now)) }
{
    let mut cells = Seq::new(alloc);
    let mut at = 0;
    'cards: while at < cards.len() {
        take_card(alloc, &mut cells, &cards[at], &cards[at + 1..])?;
        at += 1;
    }
    Ok(cells)
}
