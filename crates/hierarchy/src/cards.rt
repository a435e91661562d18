//! The first instance card that does not fit.

ghost use Rattle.std.specs.Prelude.{◌≡◌, ◌⊎◌, ◌<◌, not, find, flat_map, length};
ghost use Rattle.std.specs.Option.{option_copied};
ghost use Rattle.vrt_model.specs.Comparison.{cell_at};
ghost use Rattle.vrt_model.specs.Hierarchy.{is_good_card};
ghost use Rattle.vrt_model.specs.Inputs.{IsDesign};
ghost use Rattle.vrt_model.specs.declared.design.Cell.{Cell as CellValue};
ghost use Rattle.vrt_model.specs.declared.design.InstanceCard.{InstanceCard as CardValue};
ghost use Rattle.hierarchy.specs.Cards.{CardsGive, card_fault};
ghost use Rattle.hierarchy.specs.Tables.{AreNames};

use crate::HierFault;
use names::Names;
use std::alloc::Global;
use vrt_model::{Cell, Design, InstanceCard, Text};

/// How many ports a cell has, 0 where there is none.
fn port_count(design: &Design, number: usize) -> usize
    ensures { result ≡ length (cell_at design.now number).ports }
{
    match design.cells.get(number) {
        Some(cell) => cell.ports.len(),
        None => 0,
    }
}

/// Whether a card is of a cell that is there, with as many nets as it has ports.
fn is_good(design: &Design, names: &Names, card: &InstanceCard) -> bool
    requires { AreNames design.now names.now }
    ensures { result ≡ is_good_card design.now card.now }
{
    match names.place(card.cell.as_bytes()) {
        Some(number) => card.nets.len() == port_count(design, number),
        None => false,
    }
}

/// The first of some cards that is not good.
fn first_bad<'a>(
    design: &Design,
    names: &Names,
    cards: &'a [InstanceCard],
) -> Option<&'a InstanceCard>
    requires { AreNames design.now names.now }
    ensures { option_copied result ≡ find (λ (i : CardValue). not (is_good_card design.now i)) cards.entry.now }
{
    for card in cards {
        if !is_good(design, names, card) {
            return Some(card);
        }
    }
    None
}

/// The first card of some cells that is not good.
fn bad_in<'a>(design: &Design, names: &Names, cells: &'a [Cell]) -> Option<&'a InstanceCard>
    requires { AreNames design.now names.now }
    ensures { option_copied result ≡ find (λ (i : CardValue). not (is_good_card design.now i)) (flat_map (λ (c : CellValue). c.instances) cells.entry.now) }
{
    for cell in cells {
        if let Some(card) = first_bad(design, names, cell.instances.as_slice()) {
            return Some(card);
        }
    }
    None
}

/// A count as one of 32 bits.
fn small(count: usize) -> u32
    requires { count < 4294967296 }
    ensures { result ≡ count }
{
    count as u32
}

/// The fault of a card that is not good.
fn fault_of(alloc: Global, design: &Design, names: &Names, card: &InstanceCard) -> HierFault
    requires names { AreNames design.now names.now }
    requires design { IsDesign design.now }
    requires nets { length card.now.nets < 4294967296 }
    ensures { (result ≡ HierFault.NoMemory) ⊎ (result ≡ card_fault design.now card.now) }
{
    if let Some(number) = names.place(card.cell.as_bytes()) {
        return HierFault::PortCount {
            line: card.line,
            nets: small(card.nets.len()),
            ports: small(port_count(design, number)),
        };
    }
    match Text::from_bytes(alloc, card.cell.as_bytes()) {
        Ok(name) => HierFault::UnknownCell {
            line: card.line,
            name,
        },
        Err(_) => HierFault::NoMemory,
    }
}

/// Refuses a netlist with the first instance card in the order of the file that is of an unknown cell or ties another
/// count of nets than the cell has ports.
pub(crate) fn check_cards(alloc: Global, design: &Design, names: &Names) -> Result<(), HierFault>
    requires names { AreNames design.now names.now }
    requires design { IsDesign design.now }
    ensures { CardsGive design.now result }
{
    match bad_in(design, names, design.cells.as_slice()) {
        Some(card) => Err(fault_of(alloc, design, names, card)),
        None => Ok(()),
    }
}
