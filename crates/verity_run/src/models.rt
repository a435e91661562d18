//! The models of the second file, in the language that its name tells.

ghost use Rattle.std.specs.Prelude.{◌≡◌, ◌≤◌, ◌⊎◌, length, IfOk, IfErr};
ghost use Rattle.blif_checks.specs.Checked.{IsModelFault};
ghost use Rattle.verity_run.specs.Models.{AreModelsOf, AreOfCards, AreOfModules, OfCards, OfModels, OfModules, language_of};
ghost use Rattle.verity_run.specs.Refusals.{OfUnrolling, Tells};
ghost use Rattle.vrt_model.specs.Inputs.{IsBlif};
ghost use Rattle.vrt_model.specs.Models.{AreModels};
ghost use Rattle.vrt_model.specs.declared.blif.Blif.{Blif as BlifValue};

use crate::messages;
use crate::refusals::{Refusal, told};
use blif_flat::{ModelFault, check_models};
use blif_reader::{BlifFault, read_blif};
use gate_verilog::{VerilogFault, read_verilog};
use std::alloc::Global;
use vrt_model::Blif;

/// A language that models are written in.
#[derive(Clone, Copy)]
pub enum Language {
    /// The Berkeley Logic Interchange Format.
    Blif,
    /// Gate-level Verilog.
    Verilog,
}

/// The language of a file of models: gate-level Verilog where its name ends in `.v`, else BLIF.
fn language_of(name: &str) -> Language
    ensures { result ≡ language_of name.now }
{
    if name.ends_with(".v") {
        Language::Verilog
    } else {
        Language::Blif
    }
}

/// The models of a text of BLIF.
fn read_cards(alloc: Global, name: &str, bytes: &[u8]) -> Result<Blif, Refusal>
    requires { length bytes.now ≤ 16777216 }
    ensures ok { IfOk result (AreOfCards bytes.now) }
    ensures fit { IfOk result IsBlif }
    ensures err { IfErr result (Tells (OfCards name.now bytes.now)) }
{
    match read_blif(alloc, bytes) {
        Ok(blif) => Ok(blif),
        Err(BlifFault::NoMemory) => Err(Refusal::NoMemory),
        Err(fault) => Err(told(messages::blif_refusal(alloc, name.as_bytes(), &fault))),
    }
}

/// The models of a text of Verilog.
fn read_modules(alloc: Global, name: &str, bytes: &[u8]) -> Result<Blif, Refusal>
    requires { length bytes.now ≤ 16777216 }
    ensures ok { IfOk result (AreOfModules bytes.now) }
    ensures fit { IfOk result IsBlif }
    ensures err { IfErr result (Tells (OfModules name.now bytes.now)) }
{
    match read_verilog(alloc, bytes) {
        Ok(blif) => Ok(blif),
        Err(VerilogFault::NoMemory) => Err(Refusal::NoMemory),
        Err(fault) => Err(told(messages::verilog_refusal(alloc, name.as_bytes(), &fault))),
    }
}

/// The models of a file of this name with these bytes.
pub fn read_models(alloc: Global, name: &str, bytes: &[u8]) -> Result<Blif, Refusal>
    requires { length bytes.now ≤ 16777216 }
    ensures ok { IfOk result (AreModelsOf name.now bytes.now) }
    ensures fit { IfOk result IsBlif }
    ensures err { IfErr result (Tells (OfModels name.now bytes.now)) }
{
    match language_of(name) {
        Language::Blif => read_cards(alloc, name, bytes),
        Language::Verilog => read_modules(alloc, name, bytes),
    }
}

/// The refusal of models with a fault.
fn unrolling_refusal(alloc: Global, word: &str, fault: &ModelFault) -> Refusal
    ensures { (blif : BlifValue) → (fault.now ≡ ModelFault.NoMemory) ⊎ IsModelFault blif fault.now → Tells (OfUnrolling word.now blif) result }
{
    match fault {
        ModelFault::NoMemory => Refusal::NoMemory,
        _ => told(messages::models_refusal(alloc, word.as_bytes(), fault)),
    }
}

/// Refuses models that cannot be unrolled.
pub fn unroll(alloc: Global, word: &str, blif: &Blif) -> Result<(), Refusal>
    requires { IsBlif blif.now }
    ensures ok { IfOk result (λ _. AreModels blif.now) }
    ensures err { IfErr result (Tells (OfUnrolling word.now blif.now)) }
{
    match check_models(alloc, blif) {
        Ok(()) => Ok(()),
        Err(fault) => Err(unrolling_refusal(alloc, word, &fault)),
    }
}
