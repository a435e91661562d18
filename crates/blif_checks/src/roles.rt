//! Which formals a model reads and which it drives.

ghost use Rattle.std.specs.Prelude.{◌≡◌, ◌&&◌, ◌||◌, [], get_or, length, map, not, take, IfOk};
ghost use Rattle.vrt_model.specs.FlatBlif.{model_at};
ghost use Rattle.vrt_model.specs.Lists.{distinct, has_name};
ghost use Rattle.vrt_model.specs.Models.{interface_of, is_driving, is_reading};
ghost use Rattle.blif_checks.specs.Drivers.{AreClocks, in_role};
ghost use Rattle.blif_checks.specs.Tables.{AreTables};

use crate::inner::number_of;
use crate::tables::{Tables, has_name, in_interface};
use names::Names;
use std::alloc::Global;
use vrt_model::{Blif, BlifModel, NoMemory, Seq, SubLine, Text, Tie};

/// What a sub-model does at a tie.
#[derive(Clone, Copy)]
pub(crate) enum Role {
    /// It drives what is tied.
    Driving,
    /// It reads what is tied.
    Reading,
}

/// The clocks of a model, each once.
fn clocks_in(alloc: Global, model: &BlifModel) -> Result<Names, NoMemory>
    ensures { IfOk result (λ names. names ≡ distinct model.now.clocks) }
{
    let mut names = Names::new(alloc);
    names.add_all(model.clocks.as_slice())?;
    Ok(names)
}

/// The clocks of each model.
pub(crate) fn all_clocks(alloc: Global, models: &[BlifModel]) -> Result<Seq<Names>, NoMemory>
    ensures { IfOk result (λ clocks. clocks ≡ map (λ m. distinct m.clocks) models.now) }
{
    let mut clocks = Seq::new(alloc);
    for model in models {
        let one = clocks_in(alloc, model)?;
        if clocks.push(one).is_err() {
            return Err(NoMemory);
        }
    }
    Ok(clocks)
}

/// Whether a name is one of so many that come first.
fn is_among_first(names: &Names, count: usize, name: &[u8]) -> bool
    ensures { result ≡ has_name (take count names.now) name.now }
{
    match names.place(name) {
        Some(place) => place < count,
        None => false,
    }
}

/// The inputs of a model, by its number.
fn inputs_of(blif: &Blif, number: usize) -> &[Text]
    ensures { result.now ≡ (model_at blif.now number).inputs }
{
    match blif.models.get(number) {
        Some(model) => model.inputs.as_slice(),
        None => &[],
    }
}

/// Whether a model, by its number, has an input. Its inputs come first in the set of its interface.
#[tactic(auto, using(crate::proofs::DriverLaws::input_is, crate::proofs::DriverLaws::input_none))]
fn is_input(blif: &Blif, tables: &Tables, clocks: &[Names], number: usize, name: &[u8]) -> bool
    requires tables { AreTables blif.now tables.now }
    requires clocks { AreClocks blif.now clocks.now }
    ensures { result ≡ has_name (model_at blif.now number).inputs name.now }
{
    let Some(interface) = tables.interfaces.get(number) else {
        return false;
    };
    let inputs = inputs_of(blif, number);
    if interface.is_empty() {
        return has_name(inputs, name);
    }
    is_among_first(interface, inputs.len(), name)
}

/// Whether a name is in the interface of a model, by its number.
#[tactic(auto, using(crate::proofs::NameLaws::interface_there, crate::proofs::NameLaws::no_model))]
fn knows(blif: &Blif, tables: &Tables, number: usize, name: &[u8]) -> bool
    requires { AreTables blif.now tables.now }
    ensures { result ≡ has_name (interface_of (model_at blif.now number)) name.now }
{
    let Some(model) = blif.models.get(number) else {
        return false;
    };
    let Some(interface) = tables.interfaces.get(number) else {
        return false;
    };
    in_interface(model, interface, name)
}

/// Whether a list of lists of names, at a number, has a name.
fn has_at(lists: &[Names], number: usize, name: &[u8]) -> bool
    ensures { result ≡ has_name (get_or lists.now number []) name.now }
{
    match lists.get(number) {
        Some(names) => names.contains(name),
        None => false,
    }
}

/// Whether the first holds and the second does not.
fn is_first_alone(first: bool, second: bool) -> bool
    ensures { result ≡ (first && not second) }
{
    first && !second
}

/// Whether one or the other holds.
fn is_either(first: bool, second: bool) -> bool
    ensures { result ≡ (first || second) }
{
    first || second
}

/// Whether a model, by its number, reads a formal: it is an input or a clock of it.
fn reads(blif: &Blif, tables: &Tables, clocks: &[Names], number: usize, formal: &[u8]) -> bool
    requires tables { AreTables blif.now tables.now }
    requires clocks { AreClocks blif.now clocks.now }
    ensures { result ≡ (has_name (model_at blif.now number).inputs formal.now || has_name (get_or clocks.now number []) formal.now) }
{
    let among_inputs = is_input(blif, tables, clocks, number, formal);
    let among_clocks = has_at(clocks, number, formal);
    is_either(among_inputs, among_clocks)
}

/// Whether a sub-model reads what is tied.
fn is_reading(blif: &Blif, tables: &Tables, clocks: &[Names], sub: &SubLine, tie: &Tie) -> bool
    requires tables { AreTables blif.now tables.now }
    requires clocks { AreClocks blif.now clocks.now }
    ensures { result ≡ is_reading blif.now sub.now tie.now }
{
    let number = number_of(&tables.names, sub.model.as_bytes());
    reads(blif, tables, clocks, number, tie.formal.as_bytes())
}

/// Whether a sub-model drives what is tied.
fn is_driving(blif: &Blif, tables: &Tables, clocks: &[Names], sub: &SubLine, tie: &Tie) -> bool
    requires tables { AreTables blif.now tables.now }
    requires clocks { AreClocks blif.now clocks.now }
    ensures { result ≡ is_driving blif.now sub.now tie.now }
{
    let number = number_of(&tables.names, sub.model.as_bytes());
    let formal = tie.formal.as_bytes();
    let known = knows(blif, tables, number, formal);
    let read = reads(blif, tables, clocks, number, formal);
    is_first_alone(known, read)
}

/// Whether a sub-model has a role at a tie.
pub(crate) fn has_role(
    blif: &Blif,
    tables: &Tables,
    clocks: &[Names],
    role: Role,
    sub: &SubLine,
    tie: &Tie,
) -> bool
    requires tables { AreTables blif.now tables.now }
    requires clocks { AreClocks blif.now clocks.now }
    ensures { result ≡ in_role role blif.now sub.now tie.now }
{
    match role {
        Role::Driving => is_driving(blif, tables, clocks, sub, tie),
        Role::Reading => is_reading(blif, tables, clocks, sub, tie),
    }
}
