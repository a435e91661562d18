//! Mentions of the signals of a model on its cards.

ghost use Rattle.std.specs.Prelude.{◌≡◌, ◌++◌, ◌∷◌, [], length, map, flat_map, filter, IfOk, OnOk};
ghost use Rattle.vrt_model.specs.FlatBlif.{cover_signals, latch_signals};
ghost use Rattle.vrt_model.specs.Models.{on_line, on_lines};
ghost use Rattle.blif_checks.specs.Mentions.{cover_mentions, latch_mentions, mentions_in, number_among, numbered, sub_mentions};
ghost use Rattle.blif_checks.specs.Parts.{part_of};

use crate::part::{Part, covers_of, latches_of, output_lines_of, outputs_of, subs_of};
use names::Names;
use std::alloc::Global;
use vrt_model::{BlifModel, CoverLine, LatchLine, NoMemory, Seq, SubLine, Text, Tie};

/// A signal on a line, by its number.
#[derive(Clone, Copy)]
pub(crate) struct Mention {
    pub(crate) line: u32,
    pub(crate) signal: usize,
}

/// The number of a name, the count of the names where it is none of them.
fn number_among(names: &Names, name: &[u8]) -> usize
    ensures { result ≡ number_among names.now name.now }
{
    match names.place(name) {
        Some(number) => number,
        None => names.len(),
    }
}

/// Adds a mention.
pub(crate) fn add(
    list: &mut Seq<Mention>,
    names: &Names,
    line: u32,
    name: &[u8],
) -> Result<(), NoMemory>
    ensures { OnOk result (list.new ≡ list.old ++ numbered names.now (on_line line name.now) ∷ []) }
{
    let signal = number_among(names, name);
    match list.push(Mention { line, signal }) {
        Ok(()) => Ok(()),
        Err(_) => Err(NoMemory),
    }
}

/// Adds mentions on one line.
pub(crate) fn add_all(
    list: &mut Seq<Mention>,
    names: &Names,
    line: u32,
    signals: &[Text],
) -> Result<(), NoMemory>
    ensures { OnOk result (list.new ≡ list.old ++ map (numbered names.now) (map (on_line line) signals.now)) }
{
    for signal in signals {
        add(list, names, line, signal.as_bytes())?;
    }
    Ok(())
}

/// Adds mentions with their lines.
pub(crate) fn add_listed(
    list: &mut Seq<Mention>,
    names: &Names,
    signals: &[Text],
    lines: &[u32],
) -> Result<(), NoMemory>
    ensures { OnOk result (list.new ≡ list.old ++ map (numbered names.now) (on_lines signals.now lines.now)) }
{
    let mut signals_left = signals;
    let mut lines_left = lines;
    'signals: while let (Some((signal, signals)), Some((line, lines))) = (
        signals_left.split_first(),
        lines_left.split_first(),
    ) {
        add(list, names, *line, signal.as_bytes())?;
        signals_left = signals;
        lines_left = lines;
    }
    Ok(())
}

/// Adds the mentions of a cover.
fn add_cover(list: &mut Seq<Mention>, names: &Names, cover: &CoverLine) -> Result<(), NoMemory>
    ensures { OnOk result (list.new ≡ list.old ++ map (numbered names.now) (cover_mentions cover.now)) }
{
    add_all(list, names, cover.line, cover.inputs.as_slice())?;
    add(list, names, cover.line, cover.output.as_bytes())
}

/// Adds the mentions of a latch.
fn add_latch(list: &mut Seq<Mention>, names: &Names, latch: &LatchLine) -> Result<(), NoMemory>
    ensures { OnOk result (list.new ≡ list.old ++ map (numbered names.now) (latch_mentions latch.now)) }
{
    add(list, names, latch.line, latch.input.as_bytes())?;
    add(list, names, latch.line, latch.output.as_bytes())?;
    match &latch.control {
        Some(control) => add(list, names, latch.line, control.as_bytes()),
        None => Ok(()),
    }
}

/// Adds the actuals of ties.
fn add_ties(list: &mut Seq<Mention>, names: &Names, line: u32, ties: &[Tie]) -> Result<(), NoMemory>
    ensures { OnOk result (list.new ≡ list.old ++ map (numbered names.now) (map (on_line line) (map (λ t. t.actual) ties.now))) }
{
    for tie in ties {
        add(list, names, line, tie.actual.as_bytes())?;
    }
    Ok(())
}

/// Adds the mentions of covers.
fn add_covers(list: &mut Seq<Mention>, names: &Names, covers: &[CoverLine]) -> Result<(), NoMemory>
    ensures { OnOk result (list.new ≡ list.old ++ map (numbered names.now) (flat_map cover_mentions covers.now)) }
{
    for cover in covers {
        add_cover(list, names, cover)?;
    }
    Ok(())
}

/// Adds the mentions of latches.
fn add_latches(
    list: &mut Seq<Mention>,
    names: &Names,
    latches: &[LatchLine],
) -> Result<(), NoMemory>
    ensures { OnOk result (list.new ≡ list.old ++ map (numbered names.now) (flat_map latch_mentions latches.now)) }
{
    for latch in latches {
        add_latch(list, names, latch)?;
    }
    Ok(())
}

/// Adds the mentions of sub-models.
fn add_subs(list: &mut Seq<Mention>, names: &Names, subs: &[SubLine]) -> Result<(), NoMemory>
    ensures { OnOk result (list.new ≡ list.old ++ map (numbered names.now) (flat_map sub_mentions subs.now)) }
{
    for sub in subs {
        add_ties(list, names, sub.line, sub.ties.as_slice())?;
    }
    Ok(())
}

/// All mentions of signals in a model or its network, by their numbers among some names.
pub(crate) fn mentions_of(
    alloc: Global,
    names: &Names,
    part: Part,
    model: &BlifModel,
) -> Result<Seq<Mention>, NoMemory>
    ensures { IfOk result (λ list. list ≡ map (numbered names.now) (mentions_in (part_of part model.now))) }
{
    let mut list = Seq::new(alloc);
    add_listed(
        &mut list,
        names,
        model.inputs.as_slice(),
        model.input_lines.as_slice(),
    )?;
    add_listed(
        &mut list,
        names,
        model.clocks.as_slice(),
        model.clock_lines.as_slice(),
    )?;
    add_listed(
        &mut list,
        names,
        outputs_of(part, model),
        output_lines_of(part, model),
    )?;
    add_covers(&mut list, names, covers_of(part, model))?;
    add_latches(&mut list, names, latches_of(part, model))?;
    add_subs(&mut list, names, subs_of(part, model))?;
    Ok(list)
}
