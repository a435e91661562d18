//! Models with their sub-models unrolled.

ghost use Rattle.std.specs.Prelude.{◌≡◌, ◌≤◌, ◌++◌, ◌∷◌, Some, None, [], filter, map, not, length, IfOk, OnOk};
ghost use Rattle.vrt_model.specs.Lists.{has_name};
ghost use Rattle.names.specs.Names.{with_names};
ghost use Rattle.vrt_model.specs.FlatBlif.{flat_model_of, model_at, network_names, signals_of, top_model, unrolled_of};
ghost use Rattle.vrt_model.specs.Inputs.{IsBlif};
ghost use Rattle.vrt_model.specs.Models.{AreModels, bad_sub};
ghost use Rattle.vrt_model.specs.Unsupported.{carried, model_limits, too_large};
ghost use Rattle.blif_flat.specs.Counts.{AreFlatCounts, AreModelTables};
ghost use Rattle.blif_flat.specs.Flat.{FlatGives};
ghost use Rattle.blif_flat.specs.Network.{rows_of};
ghost use Rattle.blif_flat.specs.Places.{HasRoom, IsInterface, IsPlace, number_in, place_in};
ghost use Rattle.blif_checks.specs.Tables.{AreTables};

use crate::FlatModelFault;
use crate::counts::{Counts, counts_of, counts_with, rows_of};
use crate::limits::first_above;
use crate::network::{names_at, with_network};
use crate::places::{Place, number_at, top_place};
use crate::tables::{ModelTables, model_tables};
use crate::unroll::{Parts, numbers_of, unroll};
use blif_checks::Tables;
use names::Names;
use std::alloc::Global;
use vrt_model::{Blif, BlifModel, FlatModel, NoMemory, Seq, Text};

/// How many rows the network of the model of a number has.
fn network_rows(blif: &Blif, model: usize) -> u64
    ensures { result ≡ carried (rows_of (model_at blif.now model).exdc) }
{
    match blif.models.get(model) {
        Some(model) => rows_of(model.exdc.as_slice()),
        None => 0,
    }
}

/// The counts of a model with its network, by the names that this drives.
fn all_counts(tables: &ModelTables, blif: &Blif, names: &Names, model: usize) -> Counts
    requires tables { AreModelTables blif.now tables.now }
    requires subs { bad_sub blif.now ≡ None }
    requires names { names.now ≡ network_names (model_at blif.now model) }
    ensures { AreFlatCounts blif.now model result }
{
    let rows = network_rows(blif, model);
    counts_with(counts_of(tables, model), names.len() as u64, rows)
}

/// The first count of a model that passes its limit, if any does.
fn count_above(tables: &ModelTables, blif: &Blif, names: &Names, model: usize) -> Option<u64>
    requires tables { AreModelTables blif.now tables.now }
    requires subs { bad_sub blif.now ≡ None }
    requires names { names.now ≡ network_names (model_at blif.now model) }
    ensures { result ≡ too_large (model_limits blif.now model) }
{
    first_above(all_counts(tables, blif, names, model))
}

/// The names of a list.
fn names_of(alloc: Global, names: &[Text]) -> Result<Names, NoMemory>
    ensures { IfOk result (λ all. all ≡ with_names [] names.now) }
{
    let mut all = Names::new(alloc);
    all.add_all(names)?;
    Ok(all)
}

/// Adds the flat signal of a clock that is no input.
fn add_clock(
    place: &Place,
    inputs: &Names,
    clock: &Text,
    numbers: &mut Seq<u32>,
) -> Result<(), NoMemory>
    requires { HasRoom place.now }
    ensures { OnOk result (numbers.new ≡ numbers.old ++ map (number_in place.now) (filter (λ name. not (has_name inputs.now name)) (clock.now ∷ []))) }
{
    if inputs.contains(clock.as_bytes()) {
        return Ok(());
    }
    if numbers.push(number_at(place, clock.as_bytes())).is_err() {
        return Err(NoMemory);
    }
    Ok(())
}

/// The flat signals of clocks that are no inputs.
fn clocks_of(
    alloc: Global,
    place: &Place,
    inputs: &Names,
    clocks: &[Text],
) -> Result<Seq<u32>, NoMemory>
    requires { HasRoom place.now }
    ensures { IfOk result (λ numbers. numbers ≡ map (number_in place.now) (filter (λ name. not (has_name inputs.now name)) clocks.now)) }
{
    let mut numbers = Seq::new(alloc);
    for clock in clocks {
        add_clock(place, inputs, clock, &mut numbers)?;
    }
    Ok(numbers)
}

/// The flat signals of an interface. A name that is an input and a clock is listed among the inputs.
#[derive(Drop)]
pub(crate) struct Interface {
    pub inputs: Seq<u32>,
    pub clocks: Seq<u32>,
    pub outputs: Seq<u32>,
}

/// The interface of a model at a place.
fn interface_of(alloc: Global, place: &Place, model: &BlifModel) -> Result<Interface, NoMemory>
    requires { HasRoom place.now }
    ensures { IfOk result (λ interface. IsInterface place.now model.now interface) }
{
    let inputs = names_of(alloc, model.inputs.as_slice())?;
    Ok(Interface {
        inputs: numbers_of(alloc, place, model.inputs.as_slice())?,
        clocks: clocks_of(alloc, place, &inputs, model.clocks.as_slice())?,
        outputs: numbers_of(alloc, place, model.outputs.as_slice())?,
    })
}

/// The interface of the model at a place, empty where there is no model.
fn interface_at(alloc: Global, blif: &Blif, place: &Place) -> Result<Interface, NoMemory>
    requires { HasRoom place.now }
    ensures { IfOk result (λ interface. IsInterface place.now (model_at blif.now place.now.model) interface) }
{
    match blif.models.get(place.model) {
        Some(model) => interface_of(alloc, place, model),
        None => Ok(Interface {
            inputs: Seq::new(alloc),
            clocks: Seq::new(alloc),
            outputs: Seq::new(alloc),
        }),
    }
}

/// A model with its sub-models unrolled, without its network.
fn unrolled(
    alloc: Global,
    blif: &Blif,
    tables: &Tables,
    signals: &[Seq<Text>],
    top: &Place,
    model: usize,
) -> Result<FlatModel, NoMemory>
    requires tables { AreTables blif.now tables.now }
    requires lists { signals.now ≡ map signals_of blif.now.models }
    requires subs { bad_sub blif.now ≡ None }
    requires place { IsPlace blif.now top.now }
    requires is_top { place_in top.now ≡ top_model model }
    requires limit { length (unrolled_of blif.now model).signals ≤ 20000 }
    ensures { IfOk result (λ flat. flat ≡ unrolled_of blif.now model) }
{
    let mut parts = Parts {
        signals: Seq::new(alloc),
        covers: Seq::new(alloc),
        latches: Seq::new(alloc),
    };
    unroll(alloc, blif, tables, signals, top, 32, &mut parts)?;
    let interface = interface_at(alloc, blif, top)?;
    Ok(FlatModel {
        signals: parts.signals,
        inputs: interface.inputs,
        clocks: interface.clocks,
        outputs: interface.outputs,
        covers: parts.covers,
        latches: parts.latches,
        dontcares: Seq::new(alloc),
    })
}

/// A model with its sub-models unrolled and its network behind it, by the names that this drives.
fn flat_of(
    alloc: Global,
    blif: &Blif,
    tables: &Tables,
    signals: &[Seq<Text>],
    names: &Names,
    model: usize,
) -> Result<FlatModel, NoMemory>
    requires tables { AreTables blif.now tables.now }
    requires lists { signals.now ≡ map signals_of blif.now.models }
    requires subs { bad_sub blif.now ≡ None }
    requires names { names.now ≡ network_names (model_at blif.now model) }
    requires limit { length (flat_model_of blif.now model).signals ≤ 20000 }
    ensures { IfOk result (λ flat. flat ≡ flat_model_of blif.now model) }
{
    let top = top_place(alloc, blif, signals, model)?;
    let own = unrolled(alloc, blif, tables, signals, &top, model)?;
    match blif.models.get(model) {
        Some(of) => with_network(alloc, &top, names, of, own),
        None => Ok(own),
    }
}

/// A model with its sub-models unrolled, or the first count that passes its limit.
#[tactic(auto, using(crate::proofs::FlatLaws::signals_within, crate::proofs::NetworkLaws::is_flat))]
fn unrolled_within(
    alloc: Global,
    tables: &ModelTables,
    blif: &Blif,
    model: usize,
) -> Result<FlatModel, FlatModelFault>
    requires tables { AreModelTables blif.now tables.now }
    requires blif { IsBlif blif.now }
    requires models { AreModels blif.now }
    ensures { FlatGives blif.now model result }
{
    let Ok(names) = names_at(alloc, blif, model) else {
        return Err(FlatModelFault::NoMemory);
    };
    if let Some(count) = count_above(tables, blif, &names, model) {
        return Err(FlatModelFault::Limit { count });
    }
    match flat_of(
        alloc,
        blif,
        &tables.tables,
        tables.signals.as_slice(),
        &names,
        model,
    ) {
        Ok(flat) => Ok(flat),
        Err(_) => Err(FlatModelFault::NoMemory),
    }
}

/// A model by its number with its sub-models unrolled, by the tables of the file's models, which `model_tables` makes: the
/// same as `flat_model`, without time or memory for the tables.
pub fn flat_model_with(
    alloc: Global,
    tables: &ModelTables,
    blif: &Blif,
    model: u32,
) -> Result<FlatModel, FlatModelFault>
    requires tables { AreModelTables blif.now tables.now }
    requires blif { IsBlif blif.now }
    requires models { AreModels blif.now }
    ensures { FlatGives blif.now model result }
{
    unrolled_within(alloc, tables, blif, model as usize)
}

/// A model by its number with its sub-models unrolled, as in Berkeley BLIF's `.subckt`. The flat signals are the model's
/// own in their order, which is inputs, clocks, outputs, then by first mention in covers, latches and ties; then, card by
/// card, those of each sub-model that are not tied, each with its path before it: the numbers of the `.subckt` cards from
/// 0 on, as in `2/q`; then those that the don't-care network of the model drives, each with `#dc` behind its name, and behind
/// all covers those of the network. Each flat signal has exactly one driver: an input or clock of the model, a cover or a
/// latch. A number that no model has gives an empty flat model. `Limit` comes exactly where signals, rows of
/// covers or sub-models pass their limit, and is found before anything is unrolled, in time in proportion to the cards.
pub fn flat_model(alloc: Global, blif: &Blif, model: u32) -> Result<FlatModel, FlatModelFault>
    requires blif { IsBlif blif.now }
    requires models { AreModels blif.now }
    ensures { FlatGives blif.now model result }
{
    match model_tables(alloc, blif) {
        Ok(tables) => flat_model_with(alloc, &tables, blif, model),
        Err(_) => Err(FlatModelFault::NoMemory),
    }
}
