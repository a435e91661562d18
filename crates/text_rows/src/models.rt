//! Models.

ghost use Rattle.vrt_model.specs.Inputs.{IsBlif};

use crate::{MOST_BYTES, checks, unrollings};
use blif_reader::{BlifFault, read_blif};
use row_script::{Page, number};
use std::alloc::Global;
use vrt_model::{Blif, BlifModel};

/// The name that a fault has.
fn name_of(fault: &BlifFault) -> &[u8] {
    match fault {
        BlifFault::Unsupported { word, .. } => word.as_bytes(),
        BlifFault::ModelTwice { name, .. } => name.as_bytes(),
        _ => &[],
    }
}

/// Tells how many models a text has, or why it is refused.
pub(crate) fn tell(page: &mut Page, text: &[u8]) {
    if text.len() > MOST_BYTES {
        return page.word("too many bytes");
    }
    match read_blif(page.alloc(), text) {
        Ok(blif) => page.count(blif.models.len(), " models"),
        Err(fault) => page.fault(&fault, name_of(&fault)),
    }
}

/// Tells how many parts a model has, and its name.
fn tell_parts(page: &mut Page, model: &BlifModel) {
    page.count(model.inputs.len(), " inputs, ");
    page.count(model.covers.len(), " covers, ");
    page.count(model.latches.len(), " latches, ");
    page.count(model.subs.len(), " sub-models: ");
    page.name(model.name.as_bytes());
}

/// Tells how many parts the model of a number has.
fn tell_part(page: &mut Page, blif: &Blif, at: u32) {
    match blif.models.get(at as usize) {
        Some(model) => tell_parts(page, model),
        None => page.word("no model"),
    }
}

/// Tells what is asked of models.
pub(crate) fn answer(page: &mut Page, blif: &Blif, word: &str, rest: &str)
    requires { IsBlif blif.now }
{
    match word {
        "part" => tell_part(page, blif, number(rest)),
        "check" => checks::tell(page, rest, blif),
        "unroll" => unrollings::tell(page, blif, true),
        _ => unrollings::tell(page, blif, false),
    }
}

/// Tells what is asked of the models of a text: `part`, `check`, `unroll` or `signals`.
pub(crate) fn tell_of(page: &mut Page, text: &[u8], word: &str, rest: &str) {
    if text.len() > MOST_BYTES {
        return page.word("too many bytes");
    }
    match read_blif(page.alloc(), text) {
        Ok(blif) => answer(page, &blif, word, rest),
        Err(_) => page.word("models that are not read"),
    }
}

/// Whether a text is read and has no more models than so many, or is refused for another cause than want of memory.
pub(crate) fn is_answered(alloc: Global, text: &[u8], most: usize) -> bool {
    if text.len() > MOST_BYTES {
        return false;
    }
    match read_blif(alloc, text) {
        Ok(blif) => blif.models.len() <= most,
        Err(BlifFault::NoMemory) => false,
        Err(_) => true,
    }
}
