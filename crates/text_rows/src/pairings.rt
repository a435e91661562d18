//! Cells and their models.

ghost use Rattle.vrt_model.specs.Inputs.{IsBlif};
ghost use Rattle.vrt_model.specs.Models.{AreModels};

use crate::MOST_BYTES;
use blif_flat::{check_models, flat_model};
use blif_reader::read_blif;
use latch_match::{PairFault, is_skipped, model_of, pair_ports};
use row_script::Page;
use vrt_model::{Blif, ClockRef, ClockedSignal, Design, FlatModel, Pairing, PortRole, Rules};

/// Tells the model of a cell, if it has one, and whether it is skipped.
fn tell_model(page: &mut Page, design: &Design, rules: &Rules, blif: &Blif, cell: u32)
    requires { IsBlif blif.now }
{
    match model_of(design, blif, rules, cell) {
        Some(model) => {
            page.word("model ");
            page.number(model);
        }
        None => page.word("no model"),
    }
    page.word(", skipped ");
    page.bit(is_skipped(design, rules, cell));
}

/// Tells a word and a number.
fn tell_number(page: &mut Page, word: &str, number: u32) {
    page.word(word);
    page.number(number);
}

/// Tells a clock that is carried.
fn tell_clock(page: &mut Page, word: &str, carried: ClockRef) {
    tell_number(page, word, carried.clock);
    page.word(" inverted ");
    page.bit(carried.inverted);
}

/// Tells the role of a port.
fn tell_role(page: &mut Page, role: PortRole) {
    match role {
        PortRole::Supply(value) => {
            page.word(", supply ");
            page.bit(value);
        }
        PortRole::Clock(carried) => tell_clock(page, ", clock ", carried),
        PortRole::Input(signal) => tell_number(page, ", input ", signal),
        PortRole::Output(signal) => tell_number(page, ", output ", signal),
    }
}

/// Tells the roles of ports.
fn tell_roles(page: &mut Page, roles: &[PortRole]) {
    for role in roles {
        tell_role(page, *role);
    }
}

/// Tells signals and the clocks that they carry.
fn tell_clocked(page: &mut Page, carriers: &[ClockedSignal]) {
    for carrier in carriers {
        tell_number(page, ", signal ", carrier.signal);
        tell_clock(page, " carries ", carrier.clock);
    }
}

/// Tells the model of a pairing, the roles of the ports, and the signals that carry clocks.
fn tell_pairing(page: &mut Page, pairing: &Pairing) {
    tell_number(page, "model ", pairing.model);
    tell_roles(page, pairing.ports.as_slice());
    tell_clocked(page, pairing.clocked.as_slice());
}

/// The name that a fault has.
fn name_of(fault: &PairFault) -> &[u8] {
    match fault {
        PairFault::Ports { name } => name.as_bytes(),
        PairFault::OutputIsInput { signal } => signal.as_bytes(),
        PairFault::NoMemory => &[],
    }
}

/// Tells the pairing of the first cell with a flat model, of the number 7.
fn paired(page: &mut Page, design: &Design, rules: &Rules, flat: &FlatModel) {
    if design.cells.is_empty() || rules.clocks.len() > 16 {
        return page.word("no cell, or more clocks than there may be");
    }
    match pair_ports(page.alloc(), design, 0, 7, flat, rules) {
        Ok(pairing) => tell_pairing(page, &pairing),
        Err(fault) => page.fault(&fault, name_of(&fault)),
    }
}

/// Tells the pairing of the first cell with the first model.
fn unrolled(page: &mut Page, design: &Design, rules: &Rules, blif: &Blif)
    requires blif { IsBlif blif.now }
    requires models { AreModels blif.now }
{
    match flat_model(page.alloc(), blif, 0) {
        Ok(flat) => paired(page, design, rules, &flat),
        Err(_) => page.word("a model that is not unrolled"),
    }
}

/// The same with the models.
fn answer(page: &mut Page, design: &Design, rules: &Rules, blif: &Blif, cell: Option<u32>)
    requires { IsBlif blif.now }
{
    if let Some(cell) = cell {
        return tell_model(page, design, rules, blif, cell);
    }
    match check_models(page.alloc(), blif) {
        Ok(()) => unrolled(page, design, rules, blif),
        Err(_) => page.word("models that can not be unrolled"),
    }
}

/// Tells the model of a cell, or without one the pairing of the first cell with the first model.
pub(crate) fn tell(
    page: &mut Page,
    design: &Design,
    rules: &Rules,
    models: &[u8],
    cell: Option<u32>,
) {
    if models.len() > MOST_BYTES {
        return page.word("too many bytes");
    }
    match read_blif(page.alloc(), models) {
        Ok(blif) => answer(page, design, rules, &blif, cell),
        Err(_) => page.word("models that are not read"),
    }
}
