//! Look-ups by name.

ghost use Rattle.std.specs.Prelude.{◌≡◌, ◌++◌, ◌∷◌, [], List, ℕ, map, IfOk, OnOk};
ghost use Rattle.vrt_model.specs.Lists.{distinct, has_name};
ghost use Rattle.names.specs.Names.{with_names};
ghost use Rattle.vrt_model.specs.Inputs.{IsBlif};
ghost use Rattle.vrt_model.specs.Models.{interface_of};
ghost use Rattle.vrt_model.specs.declared.blif.BlifModel.{BlifModel};
ghost use Rattle.vrt_model.specs.declared.blif.SubLine.{SubLine as SubValue};
ghost use Rattle.blif_checks.specs.Tables.{AreTables, IsInterfaceSet, inner_names, interface_by};

use names::Names;
use std::alloc::Global;
use vrt_model::{Blif, BlifModel, NoMemory, Seq, SubLine, Text};

/// The numbers of models by name, and the signals of the interfaces of those that stand in models.
pub struct Tables {
    /// The names of the models. The place of a name is the number of its model, from 0.
    pub names: Names,
    /// For each model, by its number, the names of its inputs, clocks and outputs, each once, if it stands in a model; else
    /// none.
    pub interfaces: Seq<Names>,
}

/// By hand, so that letting go of one is a call.
impl Drop for Tables {
    fn drop(self) {
        let Tables {
            names: _names,
            interfaces: _interfaces,
        } = self;
    }
}

/// The names of models.
fn names_of(alloc: Global, models: &[BlifModel]) -> Result<Names, NoMemory>
    ensures { IfOk result (λ names. names ≡ distinct (map (λ m. m.name) models.now)) }
{
    let mut names = Names::new(alloc);
    for model in models {
        names.number(model.name.as_bytes())?;
    }
    Ok(names)
}

/// The signals of an interface, each once.
fn interface(alloc: Global, model: &BlifModel) -> Result<Names, NoMemory>
    ensures { IfOk result (λ names. names ≡ distinct (interface_of model.now)) }
{
    let mut names = Names::new(alloc);
    names.add_all(model.inputs.as_slice())?;
    names.add_all(model.clocks.as_slice())?;
    names.add_all(model.outputs.as_slice())?;
    Ok(names)
}

/// The interface of a model that is among some; of another one nothing.
fn interface_by(alloc: Global, inner: &Names, model: &BlifModel) -> Result<Names, NoMemory>
    ensures { IfOk result (λ names. names ≡ interface_by inner.now model.now) }
{
    if !inner.contains(model.name.as_bytes()) {
        return Ok(Names::new(alloc));
    }
    interface(alloc, model)
}

/// Adds the names of the models of sub-models.
fn add_inner(names: &mut Names, subs: &[SubLine]) -> Result<(), NoMemory>
    ensures { OnOk result (names.new ≡ with_names names.old (map (λ (s : SubValue). s.model) subs.now)) }
{
    for sub in subs {
        names.number(sub.model.as_bytes())?;
    }
    Ok(())
}

/// The names of the models that stand in models.
fn inner_names(alloc: Global, models: &[BlifModel]) -> Result<Names, NoMemory>
    ensures { IfOk result (λ names. names ≡ inner_names models.now) }
{
    let mut names = Names::new(alloc);
    for model in models {
        add_inner(&mut names, model.subs.as_slice())?;
    }
    Ok(names)
}

/// The interfaces of models, of those that are among some.
fn interfaces_of(alloc: Global, inner: &Names, models: &[BlifModel]) -> Result<Seq<Names>, NoMemory>
    ensures { IfOk result (λ found. found ≡ map (interface_by inner.now) models.now) }
{
    let mut found = Seq::new(alloc);
    for model in models {
        let one = interface_by(alloc, inner, model)?;
        if found.push(one).is_err() {
            return Err(NoMemory);
        }
    }
    Ok(found)
}

/// What is looked up in models, in time and memory in proportion to their interfaces and sub-models.
pub fn tables_of(alloc: Global, blif: &Blif) -> Result<Tables, NoMemory>
    requires { IsBlif blif.now }
    ensures { IfOk result (λ tables. AreTables blif.now tables) }
{
    let models = blif.models.as_slice();
    let inner = inner_names(alloc, models)?;
    Ok(Tables {
        names: names_of(alloc, models)?,
        interfaces: interfaces_of(alloc, &inner, models)?,
    })
}

/// Whether a name is among names.
pub(crate) fn has_name(names: &[Text], name: &[u8]) -> bool
    ensures { result ≡ has_name names.now name.now }
{
    for other in names {
        if name == other.as_bytes() {
            return true;
        }
    }
    false
}

/// Whether a name is in the interface of a model.
#[tactic(auto, using(crate::proofs::NameLaws::listed_in))]
fn is_listed(model: &BlifModel, name: &[u8]) -> bool
    ensures { result ≡ has_name (interface_of model.now) name.now }
{
    has_name(model.inputs.as_slice(), name)
        || has_name(model.clocks.as_slice(), name)
        || has_name(model.outputs.as_slice(), name)
}

/// Whether a name is in the interface of a model, by the set of that. Where there is none the model's lists are gone over.
#[tactic(auto, using(crate::proofs::NameLaws::known_in))]
pub(crate) fn in_interface(model: &BlifModel, interface: &Names, name: &[u8]) -> bool
    requires { IsInterfaceSet model.now interface.now }
    ensures { result ≡ has_name (interface_of model.now) name.now }
{
    if interface.is_empty() {
        return is_listed(model, name);
    }
    interface.contains(name)
}
