//! The first sub-model that does not fit.

ghost use Rattle.std.specs.Prelude.{◌≡◌, ◌⊎◌, [], None, ℕ, List, Bool, true, false, map, option_map, IfSome, IfNone, OnOk};
ghost use Rattle.vrt_model.specs.Lists.{has_name};
ghost use Rattle.names.specs.Names.{first_missing, with_name};
ghost use Rattle.text_lines.specs.Faults.{first_of, when};
ghost use Rattle.vrt_model.specs.FlatBlif.{formals, model_at, model_numbered};
ghost use Rattle.vrt_model.specs.Models.{bad_formal_after, bad_sub, interface_of, is_model};
ghost use Rattle.blif_checks.specs.Judged.{Judges};
ghost use Rattle.blif_checks.specs.Subs.{bad_formal_in, is_bad_formal, sub_fault, subs_fault};
ghost use Rattle.blif_checks.specs.Tables.{AreTables, IsInterfaceSet};

use crate::ModelFault;
use crate::tables::{Tables, in_interface};
use names::Names;
use std::alloc::Global;
use vrt_model::{Blif, BlifModel, SubLine, Text, Tie};

/// The fault of a formal that does not fit.
fn formals_fault(alloc: Global, line: u32, name: &[u8]) -> ModelFault
    ensures { (result ≡ ModelFault.NoMemory) ⊎ (result ≡ ModelFault.Formals line name.now) }
{
    match Text::from_bytes(alloc, name) {
        Ok(name) => ModelFault::Formals { line, name },
        Err(_) => ModelFault::NoMemory,
    }
}

/// The fault of an unknown model.
fn unknown_model(alloc: Global, sub: &SubLine) -> ModelFault
    ensures { (result ≡ ModelFault.NoMemory) ⊎ (result ≡ ModelFault.UnknownModel sub.now.line sub.now.model) }
{
    match Text::from_bytes(alloc, sub.model.as_bytes()) {
        Ok(name) => ModelFault::UnknownModel {
            line: sub.line,
            name,
        },
        Err(_) => ModelFault::NoMemory,
    }
}

/// Takes a tied formal, unless it is no signal of the interface or was seen.
fn take_formal(
    alloc: Global,
    line: u32,
    model: &BlifModel,
    interface: &Names,
    seen: &mut Names,
    formal: &[u8],
) -> Result<(), ModelFault>
    requires { IsInterfaceSet model.now interface.now }
    ensures fault { Judges result (when (is_bad_formal (interface_of model.now) seen.old formal.now) (ModelFault.Formals line formal.now)) }
    ensures seen { OnOk result (seen.new ≡ with_name seen.old formal.now) }
{
    if !in_interface(model, interface, formal) || seen.contains(formal) {
        return Err(formals_fault(alloc, line, formal));
    }
    match seen.number(formal) {
        Ok(_) => Ok(()),
        Err(_) => Err(ModelFault::NoMemory),
    }
}

/// Takes the formals of ties, up to the first that does not fit.
fn take_formals(
    alloc: Global,
    line: u32,
    model: &BlifModel,
    interface: &Names,
    seen: &mut Names,
    ties: &[Tie],
) -> Result<(), ModelFault>
    requires interface { IsInterfaceSet model.now interface.now }
    requires seen { seen.old ≡ [] }
    ensures fault { Judges result (option_map (ModelFault.Formals line) (bad_formal_after (interface_of model.now) [] (map (λ t. t.formal) ties.now))) }
    ensures seen { OnOk result ((name : List ℕ) → has_name seen.new name ≡ has_name (map (λ t. t.formal) ties.now) name) }
{
    for tie in ties {
        take_formal(alloc, line, model, interface, seen, tie.formal.as_bytes())?;
    }
    Ok(())
}

/// Refuses the first of some signals that is not tied.
fn take_tied(alloc: Global, line: u32, tied: &Names, signals: &[Text]) -> Result<(), ModelFault>
    ensures { Judges result (option_map (ModelFault.Formals line) (first_missing tied.now signals.now)) }
{
    for signal in signals {
        if !tied.contains(signal.as_bytes()) {
            return Err(formals_fault(alloc, line, signal.as_bytes()));
        }
    }
    Ok(())
}

/// Judges the ties to a model.
fn judge_ties(
    alloc: Global,
    model: &BlifModel,
    interface: &Names,
    sub: &SubLine,
) -> Result<(), ModelFault>
    requires { IsInterfaceSet model.now interface.now }
    ensures { Judges result (option_map (ModelFault.Formals sub.now.line) (bad_formal_in model.now (formals sub.now))) }
{
    let mut tied = Names::new(alloc);
    take_formals(
        alloc,
        sub.line,
        model,
        interface,
        &mut tied,
        sub.ties.as_slice(),
    )?;
    take_tied(alloc, sub.line, &tied, model.inputs.as_slice())?;
    take_tied(alloc, sub.line, &tied, model.clocks.as_slice())?;
    Ok(())
}

/// The model of a name, and its interface.
fn find_model<'a>(
    blif: &'a Blif,
    tables: &'a Tables,
    name: &[u8],
) -> Option<(&'a BlifModel, &'a Names)>
    requires { AreTables blif.now tables.now }
    ensures found { IfSome result (λ p. (is_model blif.entry.now name.now ≡ true) × (p.0.now ≡ model_at blif.entry.now (model_numbered blif.entry.now name.now)) × IsInterfaceSet p.0.now p.1.now) }
    ensures unknown { IfNone result (is_model blif.entry.now name.now ≡ false) }
{
    let number = tables.names.place(name)?;
    let model = blif.models.get(number)?;
    let interface = tables.interfaces.get(number)?;
    Some((model, interface))
}

/// Judges a sub-model.
fn judge_sub(alloc: Global, blif: &Blif, tables: &Tables, sub: &SubLine) -> Result<(), ModelFault>
    requires { AreTables blif.now tables.now }
    ensures { Judges result (sub_fault blif.now sub.now) }
{
    match find_model(blif, tables, sub.model.as_bytes()) {
        Some((model, interface)) => judge_ties(alloc, model, interface, sub),
        None => Err(unknown_model(alloc, sub)),
    }
}

/// Judges the sub-models of a model.
fn judge_subs(
    alloc: Global,
    blif: &Blif,
    tables: &Tables,
    subs: &[SubLine],
) -> Result<(), ModelFault>
    requires { AreTables blif.now tables.now }
    ensures { Judges result (first_of (map (sub_fault blif.now) subs.now)) }
{
    for sub in subs {
        judge_sub(alloc, blif, tables, sub)?;
    }
    Ok(())
}

/// Refuses models with the fault of the first `.subckt` card in file order that has one: an unknown model, or the first
/// formal that does not fit, else the first input or clock that is left out. It takes time in proportion to the ties.
pub fn check_subs(alloc: Global, blif: &Blif, tables: &Tables) -> Result<(), ModelFault>
    requires { AreTables blif.now tables.now }
    ensures fault { Judges result (subs_fault blif.now) }
    // Where it takes them, each sub-model is there and is tied as its interface asks.
    ensures fit { OnOk result (bad_sub blif.now ≡ None) }
{
    for model in blif.models.as_slice() {
        judge_subs(alloc, blif, tables, model.subs.as_slice())?;
    }
    Ok(())
}
