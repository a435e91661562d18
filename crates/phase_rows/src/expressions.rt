//! Expressions over the ports of the first cell, each a variable, and the faults of a net of which they say what is known.

use crate::board::Board;
use crate::checks::{are_live, is_live};
use crate::stop::Stop;
use crate::values::add_bits;
use bdd_core::{H, ONE, Store, ZERO};
use constraints::expr;
use hold_keep::{KeptFaults, kept_faults};
use node_pool::Span;
use row_script::Page;
use std::alloc::Global;
use vrt_model::{Cell, Design, Rules};

/// The first cell of a netlist.
pub(crate) fn first_cell(design: &Design) -> Result<&Cell, Stop> {
    match design.cells.get(0) {
        Some(cell) => Ok(cell),
        None => Err(Stop::Unfit),
    }
}

/// A store with a variable for each port of a cell.
fn board_of(alloc: Global, cell: &Cell) -> Result<Board, Stop> {
    let ports = cell.ports.len();
    let mut board = Board::open(alloc, ports, ports)?;
    let all = board.values;
    board.put_all(all)?;
    Ok(board)
}

/// The function of the `assume` line of a number over the ports of a cell.
pub(crate) fn diagram(
    store: &mut Store,
    values: Span,
    cell: &Cell,
    rules: &Rules,
    number: usize,
) -> Result<H, Stop> {
    let Some(rule) = rules.assumes.get(number) else {
        return Err(Stop::NotRead);
    };
    if !is_live(store, values) || values.len as usize != cell.ports.len() {
        return Err(Stop::Unfit);
    }
    if !are_live(store, values) {
        return Err(Stop::Unfit);
    }
    Ok(expr(store, &rule.expression, &cell.ports, values)?)
}

/// Tells the bits of the `assume` line of a number.
pub(crate) fn tell(
    page: &mut Page,
    design: &Design,
    rules: &Rules,
    number: u32,
) -> Result<(), Stop> {
    let cell = first_cell(design)?;
    let mut board = board_of(page.alloc(), cell)?;
    let f = diagram(&mut board.store, board.values, cell, rules, number as usize)?;
    add_bits(page, &board.store, ONE, f)
}

/// Where the faults of a net stand, by where there is care, the wanted bit, and where 0 and 1 reach the net.
fn faults(store: &mut Store, [care, wanted, zero, one]: [H; 4]) -> Result<KeptFaults, Stop> {
    let count = store.node_count();
    if care.0 >= count || wanted.0 >= count || zero.0 >= count || one.0 >= count {
        return Err(Stop::Unfit);
    }
    Ok(kept_faults(store, care, wanted, zero, one)?)
}

/// Tells where the faults of a net stand, by the functions of the first four `assume` lines.
pub(crate) fn tell_kept(page: &mut Page, design: &Design, rules: &Rules) -> Result<(), Stop> {
    let cell = first_cell(design)?;
    let mut board = board_of(page.alloc(), cell)?;
    let mut known = [ZERO; 4];
    for at in 0..4usize {
        known[at] = diagram(&mut board.store, board.values, cell, rules, at)?;
    }
    let faults = faults(&mut board.store, known)?;
    page.word("fight ");
    add_bits(page, &board.store, ONE, faults.fight)?;
    page.word(", unsettled ");
    add_bits(page, &board.store, ONE, faults.unsettled)
}
