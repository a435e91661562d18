//! The don't-care network of a model behind what is unrolled of it.

ghost use Rattle.std.specs.Prelude.{◌≡◌, ◌+◌, ◌≤◌, ◌++◌, ◌∷◌, [], filter, filter_map, map, length, IfOk, OnOk};
ghost use Rattle.vrt_model.specs.Lists.{has_name};
ghost use Rattle.names.specs.Names.{with_names};
ghost use Rattle.vrt_model.specs.FlatBlif.{model_at, network_names};
ghost use Rattle.vrt_model.specs.declared.blif.CoverLine.{CoverLine as CoverValue};
ghost use Rattle.blif_flat.specs.Network.{cover_behind, dc_name, dontcare_behind, number_behind, with_network};
ghost use Rattle.blif_flat.specs.Places.{HasRoom, number_in};

use crate::places::{Place, number_at};
use crate::unroll::copies_of;
use blif_checks::cover_names;
use names::Names;
use std::alloc::Global;
use vrt_model::{Blif, BlifModel, Cover, CoverLine, DontCare, FlatModel, NoMemory, Seq, Text};

/// The outputs of covers, each once.
fn outputs_of(alloc: Global, covers: &[CoverLine]) -> Result<Names, NoMemory>
    ensures { IfOk result (λ names. names ≡ with_names [] (map (λ (c : CoverValue). c.output) covers.now)) }
{
    let mut names = Names::new(alloc);
    for cover in covers {
        names.number(cover.output.as_bytes())?;
    }
    Ok(names)
}

/// Adds a name if it is one of others.
fn add_among(names: &mut Names, others: &Names, name: &Text) -> Result<(), NoMemory>
    ensures { OnOk result (names.new ≡ with_names names.old (filter (has_name others.now) (name.now ∷ []))) }
{
    if others.contains(name.as_bytes()) {
        names.number(name.as_bytes())?;
    }
    Ok(())
}

/// Those of some names that are among others.
fn those_among(alloc: Global, list: &[Text], others: &Names) -> Result<Names, NoMemory>
    ensures { IfOk result (λ names. names ≡ with_names [] (filter (has_name others.now) list.now)) }
{
    let mut names = Names::new(alloc);
    for name in list {
        add_among(&mut names, others, name)?;
    }
    Ok(names)
}

/// The names that the network of a model drives, by first mention on its cards.
fn driven_in(alloc: Global, model: &BlifModel) -> Result<Names, NoMemory>
    ensures { IfOk result (λ names. names ≡ network_names model.now) }
{
    let covers = model.exdc.as_slice();
    let outputs = outputs_of(alloc, covers)?;
    let all = cover_names(alloc, covers)?;
    let list = all.to_texts(alloc)?;
    those_among(alloc, list.as_slice(), &outputs)
}

/// The names that the network of the model of a number drives, none where there is no model.
pub(crate) fn names_at(alloc: Global, blif: &Blif, model: usize) -> Result<Names, NoMemory>
    ensures { IfOk result (λ names. names ≡ network_names (model_at blif.now model)) }
{
    match blif.models.get(model) {
        Some(model) => driven_in(alloc, model),
        None => Ok(Names::new(alloc)),
    }
}

/// The number of a name in a network whose names stand behind so many signals.
fn number_behind(place: &Place, names: &Names, count: u32, name: &[u8]) -> u32
    requires place { HasRoom place.now }
    requires names { count + length names.now ≤ 20000 }
    ensures { result ≡ number_behind (number_in place.now) names.now count name.now }
{
    match names.place(name) {
        Some(number) => count + number as u32,
        None => number_at(place, name),
    }
}

/// The numbers of names in a network.
fn numbers_behind(
    alloc: Global,
    place: &Place,
    names: &Names,
    count: u32,
    list: &[Text],
) -> Result<Seq<u32>, NoMemory>
    requires place { HasRoom place.now }
    requires names { count + length names.now ≤ 20000 }
    ensures { IfOk result (λ numbers. numbers ≡ map (number_behind (number_in place.now) names.now count) list.now) }
{
    let mut numbers = Seq::new(alloc);
    for name in list {
        let number = number_behind(place, names, count, name.as_bytes());
        if numbers.push(number).is_err() {
            return Err(NoMemory);
        }
    }
    Ok(numbers)
}

/// A cover of a network.
fn cover_behind(
    alloc: Global,
    place: &Place,
    names: &Names,
    count: u32,
    cover: &CoverLine,
) -> Result<Cover, NoMemory>
    requires place { HasRoom place.now }
    requires names { count + length names.now ≤ 20000 }
    ensures { IfOk result (λ flat. flat ≡ cover_behind (number_in place.now) names.now count cover.now) }
{
    Ok(Cover {
        inputs: numbers_behind(alloc, place, names, count, cover.inputs.as_slice())?,
        output: number_behind(place, names, count, cover.output.as_bytes()),
        on: cover.on,
        rows: copies_of(alloc, cover.rows.as_slice())?,
    })
}

/// Adds the covers of a network.
fn add_covers(
    alloc: Global,
    place: &Place,
    names: &Names,
    count: u32,
    covers: &[CoverLine],
    flat: &mut Seq<Cover>,
) -> Result<(), NoMemory>
    requires place { HasRoom place.now }
    requires names { count + length names.now ≤ 20000 }
    ensures { OnOk result (flat.new ≡ flat.old ++ map (cover_behind (number_in place.now) names.now count) covers.now) }
{
    for cover in covers {
        let one = cover_behind(alloc, place, names, count, cover)?;
        if flat.push(one).is_err() {
            return Err(NoMemory);
        }
    }
    Ok(())
}

/// The name of a signal of a network.
fn dc_name(alloc: Global, name: &[u8]) -> Result<Text, NoMemory>
    ensures { IfOk result (λ text. text ≡ dc_name name.now) }
{
    let mut text = Text::from_bytes(alloc, name)?;
    text.extend(b"#dc")?;
    Ok(text)
}

/// Adds the signals of a network.
fn add_signals(alloc: Global, names: &Names, signals: &mut Seq<Text>) -> Result<(), NoMemory>
    ensures { OnOk result (signals.new ≡ signals.old ++ map dc_name names.now) }
{
    let list = names.to_texts(alloc)?;
    for name in list.as_slice() {
        let text = dc_name(alloc, name.as_bytes())?;
        if signals.push(text).is_err() {
            return Err(NoMemory);
        }
    }
    Ok(())
}

/// The don't-care bit of an output, if the network drives one of its name.
fn dontcare_behind(place: &Place, names: &Names, count: u32, output: &[u8]) -> Option<DontCare>
    requires place { HasRoom place.now }
    requires names { count + length names.now ≤ 20000 }
    ensures { result ≡ dontcare_behind (number_in place.now) names.now count output.now }
{
    match names.place(output) {
        Some(number) => Some(DontCare {
            output: number_at(place, output),
            bit: count + number as u32,
        }),
        None => None,
    }
}

/// Adds the don't-care bit of an output, if there is one.
fn add_dontcare(
    place: &Place,
    names: &Names,
    count: u32,
    output: &Text,
    list: &mut Seq<DontCare>,
) -> Result<(), NoMemory>
    requires place { HasRoom place.now }
    requires names { count + length names.now ≤ 20000 }
    ensures { OnOk result (list.new ≡ list.old ++ filter_map (dontcare_behind (number_in place.now) names.now count) (output.now ∷ [])) }
{
    if let Some(one) = dontcare_behind(place, names, count, output.as_bytes()) {
        if list.push(one).is_err() {
            return Err(NoMemory);
        }
    }
    Ok(())
}

/// The don't-care bits of outputs.
fn dontcares_of(
    alloc: Global,
    place: &Place,
    names: &Names,
    count: u32,
    outputs: &[Text],
) -> Result<Seq<DontCare>, NoMemory>
    requires place { HasRoom place.now }
    requires names { count + length names.now ≤ 20000 }
    ensures { IfOk result (λ list. list ≡ filter_map (dontcare_behind (number_in place.now) names.now count) outputs.now) }
{
    let mut list = Seq::new(alloc);
    for output in outputs {
        add_dontcare(place, names, count, output, &mut list)?;
    }
    Ok(list)
}

/// A flat model with the network of its model behind it.
pub(crate) fn with_network(
    alloc: Global,
    place: &Place,
    names: &Names,
    model: &BlifModel,
    own: FlatModel,
) -> Result<FlatModel, NoMemory>
    requires place { HasRoom place.now }
    requires names { length own.signals + length names.now ≤ 20000 }
    ensures { IfOk result (λ flat. flat ≡ with_network (number_in place.now) names.now model.now own) }
{
    let count = own.signals.len() as u32;
    let mut flat = own;
    add_signals(alloc, names, &mut flat.signals)?;
    let covers = model.exdc.as_slice();
    add_covers(alloc, place, names, count, covers, &mut flat.covers)?;
    flat.dontcares = dontcares_of(alloc, place, names, count, model.outputs.as_slice())?;
    Ok(flat)
}
