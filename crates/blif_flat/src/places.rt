//! Models at their places in an unrolled one.

ghost use Rattle.std.specs.Prelude.{◌≡◌, ◌+◌, ◌≤◌, ◌∷◌, [], map, filter, not, length, get_or, slice_get, position, unwrap_or, bytes_eq, IfOk, OnOk};
ghost use Rattle.std.specs.Fmt.{decimal};
ghost use Rattle.vrt_model.specs.Lists.{has_name, path_name};
ghost use Rattle.names.specs.Names.{with_names};
ghost use Rattle.vrt_model.specs.FlatBlif.{signals_of, top_model};
ghost use Rattle.vrt_model.specs.declared.blif.Tie.{Tie as TieValue};
ghost use Rattle.blif_flat.specs.Counts.{Fits};
ghost use Rattle.blif_flat.specs.Places.{HasRoom, IsPlace, number_in, place_in, placed};
ghost use Rattle.blif_checks.specs.Tables.{AreTables};

use blif_checks::{Tables, number_of};
use names::Names;
use std::alloc::Global;
use vrt_model::{Blif, NoMemory, Seq, SubLine, Text, Tie};

/// A model at its place in the unrolled one: its number, its path by places of sub-models, the signals that are tied
/// and the flat signals to which they are, its own signals, and the flat number of the first of them.
#[derive(Drop)]
pub(crate) struct Place {
    pub model: usize,
    pub path: Text,
    pub tied: Names,
    pub ties: Seq<u32>,
    pub inner: Names,
    pub base: u32,
}

/// The number of a name among own signals, 0 where it is none.
fn own_number(inner: &Names, name: &[u8]) -> u32
    requires { length inner.now ≤ 20000 }
    ensures value { result ≡ unwrap_or (position (bytes_eq name.now) inner.now) 0 }
    ensures within { result ≤ length inner.now }
{
    match inner.place(name) {
        Some(place) => place as u32,
        None => 0,
    }
}

/// The flat signal of a tie, 0 where there is none.
fn tie_at(ties: &[u32], place: usize) -> u32
    ensures { result ≡ unwrap_or (slice_get ties.now place) 0 }
{
    if place < ties.len() { ties[place] } else { 0 }
}

/// The flat signal that a name at a place is.
pub(crate) fn number_at(place: &Place, name: &[u8]) -> u32
    requires { HasRoom place.now }
    ensures { result ≡ number_in place.now name.now }
{
    match place.tied.place(name) {
        Some(tie) => tie_at(place.ties.as_slice(), tie),
        None => place.base + own_number(&place.inner, name),
    }
}

/// A name at a path.
pub(crate) fn name_at(alloc: Global, path: &Text, name: &[u8]) -> Result<Text, NoMemory>
    ensures { IfOk result (λ text. text ≡ path_name path.now name.now) }
{
    if path.is_empty() {
        return Text::from_bytes(alloc, name);
    }
    let mut text = Text::from_bytes(alloc, path.as_bytes())?;
    text.extend(b"/")?;
    text.extend(name)?;
    Ok(text)
}

/// The path of a sub-model.
fn path_of(alloc: Global, path: &Text, number: usize) -> Result<Text, NoMemory>
    ensures { IfOk result (λ text. text ≡ path_name path.now (decimal number)) }
{
    match format!(in alloc; "{number}") {
        Ok(digits) => name_at(alloc, path, digits.as_bytes()),
        Err(_) => Err(NoMemory),
    }
}

/// The formals of ties.
fn formals_of(alloc: Global, ties: &[Tie]) -> Result<Names, NoMemory>
    ensures { IfOk result (λ names. names ≡ with_names [] (map (λ (t : TieValue). t.formal) ties.now)) }
{
    let mut names = Names::new(alloc);
    for tie in ties {
        names.number(tie.formal.as_bytes())?;
    }
    Ok(names)
}

/// The flat signals of the actuals of ties.
fn actuals_of(alloc: Global, place: &Place, ties: &[Tie]) -> Result<Seq<u32>, NoMemory>
    requires { HasRoom place.now }
    ensures { IfOk result (λ numbers. numbers ≡ map (λ (t : TieValue). number_in place.now t.actual) ties.now) }
{
    let mut numbers = Seq::new(alloc);
    for tie in ties {
        if numbers
            .push(number_at(place, tie.actual.as_bytes()))
            .is_err()
        {
            return Err(NoMemory);
        }
    }
    Ok(numbers)
}

/// Adds a signal if it is not tied.
fn add_untied(names: &mut Names, tied: &Names, signal: &Text) -> Result<(), NoMemory>
    ensures { OnOk result (names.new ≡ with_names names.old (filter (λ name. not (has_name tied.now name)) (signal.now ∷ []))) }
{
    if !tied.contains(signal.as_bytes()) {
        names.number(signal.as_bytes())?;
    }
    Ok(())
}

/// Those of some signals that are not tied.
fn untied(alloc: Global, signals: &[Text], tied: &Names) -> Result<Names, NoMemory>
    ensures { IfOk result (λ names. names ≡ with_names [] (filter (λ name. not (has_name tied.now name)) signals.now)) }
{
    let mut names = Names::new(alloc);
    for signal in signals {
        add_untied(&mut names, tied, signal)?;
    }
    Ok(names)
}

/// The signals of the model at a place, none where there is no model.
fn own_signals(
    alloc: Global,
    signals: &[Seq<Text>],
    model: usize,
    tied: &Names,
) -> Result<Names, NoMemory>
    ensures { IfOk result (λ names. names ≡ with_names [] (filter (λ name. not (has_name tied.now name)) (get_or signals.now model []))) }
{
    match signals.get(model) {
        Some(list) => untied(alloc, list.as_slice(), tied),
        None => Ok(Names::new(alloc)),
    }
}

/// The model that is unrolled, at the top.
pub(crate) fn top_place(
    alloc: Global,
    blif: &Blif,
    signals: &[Seq<Text>],
    model: usize,
) -> Result<Place, NoMemory>
    requires lists { signals.now ≡ map signals_of blif.now.models }
    ensures place { IfOk result (λ top. IsPlace blif.now top) }
    ensures is_top { IfOk result (λ top. place_in top ≡ top_model model) }
{
    let tied = Names::new(alloc);
    let inner = own_signals(alloc, signals, model, &tied)?;
    Ok(Place {
        model,
        path: Text::new(alloc),
        tied,
        ties: Seq::new(alloc),
        inner,
        base: 0,
    })
}

/// A sub-model of a place by its card and the number of the card among those of its model, from 0 on.
pub(crate) fn sub_place(
    alloc: Global,
    blif: &Blif,
    tables: &Tables,
    signals: &[Seq<Text>],
    place: &Place,
    number: usize,
    sub: &SubLine,
    base: u32,
) -> Result<Place, NoMemory>
    requires tables { AreTables blif.now tables.now }
    requires lists { signals.now ≡ map signals_of blif.now.models }
    requires fits { Fits blif.now sub.now }
    requires is_place { IsPlace blif.now place.now }
    requires room { HasRoom place.now }
    ensures place { IfOk result (λ inner. IsPlace blif.now inner) }
    ensures is_placed { IfOk result (λ inner. place_in inner ≡ placed blif.now (place_in place.now) number base sub.now) }
{
    let model = number_of(&tables.names, sub.model.as_bytes());
    let tied = formals_of(alloc, sub.ties.as_slice())?;
    let inner = own_signals(alloc, signals, model, &tied)?;
    Ok(Place {
        model,
        path: path_of(alloc, &place.path, number)?,
        tied,
        ties: actuals_of(alloc, place, sub.ties.as_slice())?,
        inner,
        base,
    })
}
