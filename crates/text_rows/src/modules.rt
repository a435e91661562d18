//! Modules of gate-level Verilog.

ghost use Rattle.vrt_model.specs.Inputs.{IsBlif};

use crate::{MOST_BYTES, models};
use gate_verilog::{VerilogFault, read_verilog};
use row_script::{Page, word_and_rest};
use vrt_model::Blif;

/// The name that a fault has.
fn name_of(fault: &VerilogFault) -> &[u8] {
    match fault {
        VerilogFault::Unsupported { word, .. } => word.as_bytes(),
        VerilogFault::ModuleTwice { name, .. } => name.as_bytes(),
        VerilogFault::PortForm { name, .. } => name.as_bytes(),
        _ => &[],
    }
}

/// Tells how many models modules are, or what is asked of these models.
fn answer(page: &mut Page, blif: &Blif, asked: &str)
    requires { IsBlif blif.now }
{
    let (word, rest) = word_and_rest(asked);
    match word {
        "" => page.count(blif.models.len(), " models"),
        _ => models::answer(page, blif, word, rest),
    }
}

/// Tells what is asked of the models of a text (`models`), how many there are if nothing is, or why the text is refused.
pub(crate) fn tell(page: &mut Page, text: &[u8], asked: &str) {
    if text.len() > MOST_BYTES {
        return page.word("too many bytes");
    }
    match read_verilog(page.alloc(), text) {
        Ok(blif) => answer(page, &blif, asked),
        Err(fault) => page.fault(&fault, name_of(&fault)),
    }
}
