//! The names that are written.

ghost use Rattle.std.specs.Prelude.{◌≡◌, ◌++◌, ◌∷◌, [], IfOk, OnOk, filter, filter_map, not};
ghost use Rattle.cell_writer.specs.Names.{input_name, name_in};
ghost use Rattle.vrt_model.specs.Lists.{has_name};

use std::alloc::Global;
use vrt_model::{NoMemory, PortRole, Text};

/// Whether a name is among others.
fn has_name(names: &[Text], name: &[u8]) -> bool
    ensures { result ≡ has_name names.now name.now }
{
    for other in names {
        if name == other.as_bytes() {
            return true;
        }
    }
    false
}

/// Adds a copy of a name.
fn add_name(names: &mut Vec<Text>, alloc: Global, name: &[u8]) -> Result<(), NoMemory>
    ensures { OnOk result (names.new.items ≡ names.old.items ++ name.now ∷ []) }
{
    let copy = Text::from_bytes(alloc, name)?;
    match names.push(copy) {
        Ok(()) => Ok(()),
        Err(_) => Err(NoMemory),
    }
}

/// Adds copies of the names that are not among some others.
fn add_others(
    names: &mut Vec<Text>,
    alloc: Global,
    others: &[Text],
    all: &[Text],
) -> Result<(), NoMemory>
    ensures { OnOk result (names.new.items ≡ names.old.items ++ filter (λ name. not (has_name others.now name)) all.now) }
{
    for name in all {
        if !has_name(others, name.as_bytes()) {
            add_name(names, alloc, name.as_bytes())?;
        }
    }
    Ok(())
}

/// Copies of the clocks that are not among the inputs.
pub(crate) fn other_clocks(
    alloc: Global,
    inputs: &[Text],
    clocks: &[Text],
) -> Result<Vec<Text>, NoMemory>
    ensures { IfOk result (λ names. names.items ≡ filter (λ name. not (has_name inputs.now name)) clocks.now) }
{
    let mut names = Vec::new(alloc);
    add_others(&mut names, alloc, inputs, clocks)?;
    Ok(names)
}

/// The name of a signal.
fn name_in(signals: &[Text], signal: u32) -> &[u8]
    ensures { result.now ≡ name_in signals.entry.now signal }
{
    match signals.get(signal as usize) {
        Some(name) => name.as_bytes(),
        None => &[],
    }
}

/// Adds the names of the signals of input ports with these roles.
fn add_inputs(
    names: &mut Vec<Text>,
    alloc: Global,
    signals: &[Text],
    roles: &[PortRole],
) -> Result<(), NoMemory>
    ensures { OnOk result (names.new.items ≡ names.old.items ++ filter_map (input_name signals.now) roles.now) }
{
    let mut left = roles;
    'roles: while let Some((role, behind)) = left.split_first() {
        if let PortRole::Input(signal) = role {
            add_name(names, alloc, name_in(signals, *signal))?;
        }
        left = behind;
    }
    Ok(())
}

/// The names of the signals of input ports, in the order of the ports.
pub(crate) fn variable_names(
    alloc: Global,
    signals: &[Text],
    roles: &[PortRole],
) -> Result<Vec<Text>, NoMemory>
    ensures { IfOk result (λ names. names.items ≡ filter_map (input_name signals.now) roles.now) }
{
    let mut names = Vec::new(alloc);
    add_inputs(&mut names, alloc, signals, roles)?;
    Ok(names)
}
