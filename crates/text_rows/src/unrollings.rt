//! Models with their sub-models unrolled.

ghost use Rattle.vrt_model.specs.Inputs.{IsBlif};
ghost use Rattle.vrt_model.specs.Models.{AreModels};

use blif_flat::{check_models, flat_model};
use row_script::Page;
use vrt_model::{Blif, Cover, FlatLatch, FlatModel, Text};

/// Tells names with a blank before each.
fn tell_names(page: &mut Page, names: &[Text]) {
    for name in names {
        page.word(" ");
        page.name(name.as_bytes());
    }
}

/// Tells a word, and numbers with a blank before each.
fn tell_numbers(page: &mut Page, word: &str, numbers: &[u32]) {
    page.word(word);
    for number in numbers {
        page.behind_blank(*number);
    }
}

/// Tells the signals that covers drive.
fn tell_covers(page: &mut Page, covers: &[Cover]) {
    page.word(", covers drive");
    for cover in covers {
        page.behind_blank(cover.output);
    }
}

/// Tells the signals that latches drive.
fn tell_latches(page: &mut Page, latches: &[FlatLatch]) {
    page.word(", latches drive");
    for latch in latches {
        page.behind_blank(latch.output);
    }
}

/// Tells the signals of a flat model and what drives them.
fn tell_model(page: &mut Page, flat: &FlatModel) {
    page.word("signals");
    tell_names(page, flat.signals.as_slice());
    tell_numbers(page, ", inputs", flat.inputs.as_slice());
    tell_numbers(page, ", clocks", flat.clocks.as_slice());
    tell_numbers(page, ", outputs", flat.outputs.as_slice());
    tell_covers(page, flat.covers.as_slice());
    tell_latches(page, flat.latches.as_slice());
}

/// Tells how many signals a flat model has, or all that it is.
fn tell_flat(page: &mut Page, flat: &FlatModel, in_full: bool) {
    if in_full {
        return tell_model(page, flat);
    }
    page.count(flat.signals.len(), " signals");
}

/// Tells what the first of models is unrolled to, or why it is refused.
fn unrolled(page: &mut Page, blif: &Blif, in_full: bool)
    requires blif { IsBlif blif.now }
    requires models { AreModels blif.now }
{
    match flat_model(page.alloc(), blif, 0) {
        Ok(flat) => tell_flat(page, &flat, in_full),
        Err(fault) => page.display(&fault),
    }
}

/// The same of models that are checked first.
pub(crate) fn tell(page: &mut Page, blif: &Blif, in_full: bool)
    requires { IsBlif blif.now }
{
    match check_models(page.alloc(), blif) {
        Ok(()) => unrolled(page, blif, in_full),
        Err(_) => page.word("models that can not be unrolled"),
    }
}
