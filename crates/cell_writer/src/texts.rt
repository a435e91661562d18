//! The text of a cell's functions.

ghost use Rattle.std.specs.Prelude.{◌≡◌, ◌<◌, ◌++◌, ◌∷◌, [], All, IfOk, OnOk, length, map};
ghost use Rattle.cell_writer.specs.Made.{HasNames, IsLogicBy, LogicGives, refusal_of};
ghost use Rattle.output_joins.specs.Joins.{AreLive, handle_in};
ghost use Rattle.written_models.specs.Written.{Logic};

use crate::refusal::WriteRefusal;
use bdd_core::{H, ZERO};
use diagram_text::{Interface, TextRefusal, logic_text};
use output_functions::Functions;
use std::alloc::Global;
use vrt_model::{BlifModel, NoMemory, Text};

/// The handle of a signal.
fn handle_at(handles: &[H], signal: u32) -> H
    ensures { result ≡ handle_in handles.now signal }
{
    match handles.get(signal as usize) {
        Some(handle) => *handle,
        None => ZERO,
    }
}

/// Adds a handle.
fn add_handle(chosen: &mut Vec<H>, handle: H) -> Result<(), NoMemory>
    ensures { OnOk result (chosen.new.items ≡ chosen.old.items ++ handle ∷ []) }
{
    match chosen.push(handle) {
        Ok(()) => Ok(()),
        Err(_) => Err(NoMemory),
    }
}

/// Adds the handles of some signals.
fn add_handles(chosen: &mut Vec<H>, handles: &[H], signals: &[u32]) -> Result<(), NoMemory>
    ensures { OnOk result (chosen.new.items ≡ chosen.old.items ++ map (handle_in handles.now) signals.now) }
{
    for signal in signals {
        add_handle(chosen, handle_at(handles, *signal))?;
    }
    Ok(())
}

/// The handles of some signals, in their order.
pub(crate) fn handles_of(alloc: Global, handles: &[H], signals: &[u32]) -> Result<Vec<H>, NoMemory>
    ensures { IfOk result (λ chosen. chosen.items ≡ map (handle_in handles.now) signals.now) }
{
    let mut chosen = Vec::new(alloc);
    add_handles(&mut chosen, handles, signals)?;
    Ok(chosen)
}

/// What refuses a text refuses the cell.
fn refused(refusal: TextRefusal) -> WriteRefusal
    ensures { result ≡ refusal_of refusal }
{
    match refusal {
        TextRefusal::Large { count } => WriteRefusal::Large { count },
        TextRefusal::Long { bytes } => WriteRefusal::Long { bytes },
        TextRefusal::NoMemory => WriteRefusal::NoMemory,
    }
}

/// The interface of a model, with these names besides.
fn interface_of<'a>(
    model: &'a BlifModel,
    clocks: &'a [Text],
    variables: &'a [Text],
) -> Interface<'a>
    ensures { HasNames model.entry.now clocks.entry.now variables.entry.now result }
{
    Interface {
        name: &model.name,
        inputs: model.inputs.as_slice(),
        clocks,
        outputs: model.outputs.as_slice(),
        variables,
    }
}

/// The text of the functions of a model's outputs, by a handle for each signal.
pub(crate) fn functions_text(
    alloc: Global,
    functions: &Functions,
    outputs: &[u32],
    model: &BlifModel,
    clocks: &[Text],
    variables: &[Text],
) -> Result<Text, WriteRefusal>
    requires live { AreLive functions.now.store functions.now.handles.items }
    requires outputs { All (λ s. s < length functions.now.handles.items) outputs.now }
    requires variables { length variables.now ≡ functions.now.store.vars }
    ensures { (l : Logic) → IsLogicBy functions.now outputs.now model.now clocks.now variables.now l → LogicGives l result }
{
    let Ok(handles) = handles_of(alloc, functions.handles.as_slice(), outputs) else {
        return Err(WriteRefusal::NoMemory);
    };
    let interface = interface_of(model, clocks, variables);
    match logic_text(alloc, &functions.store, handles.as_slice(), interface) {
        Ok(text) => Ok(text),
        Err(refusal) => Err(refused(refusal)),
    }
}
