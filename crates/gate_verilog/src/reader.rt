//! The reader.

ghost use Rattle.std.specs.Prelude.{◌≡◌, ◌≤◌, ◌<◌, ◌+◌, ◌^◌, ◌⊎◌, [], length, IfErr, IfOk, OnOk};
ghost use Rattle.gate_verilog.specs.Built.{blif_with};
ghost use Rattle.gate_verilog.specs.Texts.{IsReadAs, SaysModules};
ghost use Rattle.text_lines.specs.Faults.{IsClean, IsFirst};
ghost use Rattle.verilog_models.specs.Drafts.{IsDraft, begun};
ghost use Rattle.verilog_source.specs.Kept.{seen_known};
ghost use Rattle.verilog_source.specs.Known.{nothing_known};
ghost use Rattle.verilog_source.specs.Refused.{fault_of};
ghost use Rattle.verilog_tokens.specs.Passed.{place_at};
ghost use Rattle.verilog_tokens.specs.Tokens.{tokens_from, tokens_of};
ghost use Rattle.vrt_model.specs.Inputs.{IsBlif};

use crate::build::add_told;
use std::alloc::Global;
use verilog_models::Draft;
use verilog_source::{Known, VerilogFault, first_known, is_end_kind, take_token};
use verilog_tokens::{Place, next_token};
use vrt_model::{Blif, BlifModel, Seq, Text};

/// Takes the tokens that are left, up to the first with a fault, and makes the models of their modules.
fn take_all(
    alloc: Global,
    place: &mut Place,
    known: &mut Known,
    draft: &mut Draft,
    models: &mut Seq<BlifModel>,
) -> Result<(), VerilogFault>
    requires room { place.old.line + length place.old.bytes.now < 2 ^ 32 }
    requires known { seen_known known.old ≡ nothing_known }
    requires draft { IsDraft (begun 0 []) draft.old }
    requires models { models.old ≡ [] }
    ensures clean { OnOk result (IsClean fault_of (tokens_from (place_at place.old.line place.old.is_fresh place.old.bytes.now))) }
    ensures models { OnOk result (IsReadAs (tokens_from (place_at place.old.line place.old.is_fresh place.old.bytes.now)) (blif_with models.new)) }
    ensures fit { OnOk result (IsBlif (blif_with models.new)) }
    ensures err { IfErr result (λ fault. (fault ≡ VerilogFault.NoMemory) ⊎ IsFirst fault_of (tokens_from (place_at place.old.line place.old.is_fresh place.old.bytes.now)) fault) }
{
    'tokens: loop {
        let token = next_token(place);
        let told = take_token(alloc, known, token.line, token.kind, token.bytes)?;
        if is_end_kind(token.kind) {
            return Ok(());
        }
        let Ok(()) = add_told(alloc, models, draft, told, token.bytes, &known.work) else {
            return Err(VerilogFault::NoMemory);
        };
    }
}

/// Reads a text of modules of gate-level Verilog, each as the model that it is. The text has at most 16,777,216 bytes. It
/// takes time and memory in proportion to them.
pub fn read_verilog(alloc: Global, text: &[u8]) -> Result<Blif, VerilogFault>
    requires { length text.now ≤ 16777216 }
    // Taken only where no fault stands, and then these are the models of the modules.
    ensures ok { IfOk result (λ blif. IsClean fault_of (tokens_of text.now) × IsReadAs (tokens_of text.now) blif) }
    // Their flat models say what the expressions, gates and ties of the modules do.
    ensures meaning { IfOk result (SaysModules (tokens_of text.now)) }
    // The models are then such as the calls above take: names that differ, rows that fit, and the limits.
    ensures fit { IfOk result IsBlif }
    // Refused only with the first fault, or for want of memory.
    ensures err { IfErr result (λ fault. (fault ≡ VerilogFault.NoMemory) ⊎ IsFirst fault_of (tokens_of text.now) fault) }
{
    let mut place = Place {
        line: 1,
        is_fresh: true,
        bytes: text,
    };
    let mut known = first_known(alloc);
    let mut draft = Draft::new(alloc, 0, Text::new(alloc));
    let mut models = Seq::new(alloc);
    let taken = take_all(alloc, &mut place, &mut known, &mut draft, &mut models);
    let Place {
        line: _line,
        is_fresh: _is_fresh,
        bytes: _bytes,
    } = place;
    taken?;
    Ok(Blif { models })
}
