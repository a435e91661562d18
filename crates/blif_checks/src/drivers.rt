//! What drives the signals of a model.

ghost use Rattle.std.specs.Prelude.{◌≡◌, ◌++◌, ◌∷◌, [], min, length, map, slice_get, unwrap_or, IfOk, OnOk};
ghost use Rattle.names.specs.Names.{with_names};
ghost use Rattle.vrt_model.specs.Models.{drivers_in, line_in, listed_inputs, on_line, on_lines};
ghost use Rattle.vrt_model.specs.declared.blif.CoverLine.{CoverLine as CoverValue};
ghost use Rattle.vrt_model.specs.declared.blif.LatchLine.{LatchLine as LatchValue};
ghost use Rattle.vrt_model.specs.Inputs.{IsModel};
ghost use Rattle.blif_checks.specs.Drivers.{AreClocks, at_earlier, others};
ghost use Rattle.blif_checks.specs.Mentions.{numbered};
ghost use Rattle.blif_checks.specs.Parts.{part_of};
ghost use Rattle.blif_checks.specs.Tables.{AreTables};

use crate::mentions::{Mention, add};
use crate::part::{Part, covers_of, latches_of, subs_of};
use crate::roles::Role;
use crate::tables::Tables;
use crate::ties::add_subs;
use names::Names;
use std::alloc::Global;
use vrt_model::{Blif, BlifModel, CoverLine, LatchLine, NoMemory, Seq, Text};

/// The line at a place.
fn line_at(lines: &[u32], number: usize) -> Option<u32>
    ensures { result ≡ slice_get lines.now number }
{
    lines.get(number).copied()
}

/// The first line on which a name is listed.
fn line_in(names: &Names, lines: &[u32], name: &[u8]) -> Option<u32>
    requires { length lines.now ≡ length names.now }
    ensures { result ≡ line_in (on_lines names.now lines.now) name.now }
{
    let number = names.place(name)?;
    line_at(lines, number)
}

/// The earlier of a line and another, if there is one.
fn earlier(line: u32, other: Option<u32>) -> u32
    ensures { result ≡ min line (unwrap_or other line) }
{
    match other {
        Some(other) if other < line => other,
        _ => line,
    }
}

/// Adds inputs, each at the earlier of its line and that of the clock of its name.
fn add_inputs(
    list: &mut Seq<Mention>,
    names: &Names,
    clocks: &Names,
    clock_lines: &[u32],
    inputs: &[Text],
    lines: &[u32],
) -> Result<(), NoMemory>
    requires { length clock_lines.now ≡ length clocks.now }
    ensures { OnOk result (list.new ≡ list.old ++ map (numbered names.now) (map (at_earlier (on_lines clocks.now clock_lines.now)) (on_lines inputs.now lines.now))) }
{
    let mut inputs_left = inputs;
    let mut lines_left = lines;
    'inputs: while let (Some((input, inputs)), Some((line, lines))) = (
        inputs_left.split_first(),
        lines_left.split_first(),
    ) {
        let clock = line_in(clocks, clock_lines, input.as_bytes());
        add(list, names, earlier(*line, clock), input.as_bytes())?;
        inputs_left = inputs;
        lines_left = lines;
    }
    Ok(())
}

/// Adds a clock that is no input.
fn add_clock(
    list: &mut Seq<Mention>,
    names: &Names,
    inputs: &Names,
    line: u32,
    clock: &[u8],
) -> Result<(), NoMemory>
    ensures { OnOk result (list.new ≡ list.old ++ map (numbered names.now) (others inputs.now (on_line line clock.now ∷ []))) }
{
    if inputs.contains(clock) {
        return Ok(());
    }
    add(list, names, line, clock)
}

/// Adds the clocks that are no inputs.
fn add_clocks(
    list: &mut Seq<Mention>,
    names: &Names,
    inputs: &Names,
    clocks: &[Text],
    lines: &[u32],
) -> Result<(), NoMemory>
    ensures { OnOk result (list.new ≡ list.old ++ map (numbered names.now) (others inputs.now (on_lines clocks.now lines.now))) }
{
    let mut clocks_left = clocks;
    let mut lines_left = lines;
    'clocks: while let (Some((clock, clocks)), Some((line, lines))) = (
        clocks_left.split_first(),
        lines_left.split_first(),
    ) {
        add_clock(list, names, inputs, *line, clock.as_bytes())?;
        clocks_left = clocks;
        lines_left = lines;
    }
    Ok(())
}

/// Adds the outputs of covers.
fn add_covers(list: &mut Seq<Mention>, names: &Names, covers: &[CoverLine]) -> Result<(), NoMemory>
    ensures { OnOk result (list.new ≡ list.old ++ map (numbered names.now) (map (λ (c : CoverValue). on_line c.line c.output) covers.now)) }
{
    for cover in covers {
        add(list, names, cover.line, cover.output.as_bytes())?;
    }
    Ok(())
}

/// Adds the outputs of latches.
fn add_latches(
    list: &mut Seq<Mention>,
    names: &Names,
    latches: &[LatchLine],
) -> Result<(), NoMemory>
    ensures { OnOk result (list.new ≡ list.old ++ map (numbered names.now) (map (λ (l : LatchValue). on_line l.line l.output) latches.now)) }
{
    for latch in latches {
        add(list, names, latch.line, latch.output.as_bytes())?;
    }
    Ok(())
}

/// The names of signals, each once.
fn once(alloc: Global, signals: &[Text]) -> Result<Names, NoMemory>
    ensures { IfOk result (λ names. names ≡ with_names [] signals.now) }
{
    let mut names = Names::new(alloc);
    names.add_all(signals)?;
    Ok(names)
}

/// Adds the clocks of a model that are no inputs. Where it has no clocks, its inputs are not looked up.
#[tactic(auto, using(crate::proofs::DriverLaws::clocks_are, crate::proofs::DriverLaws::no_clocks))]
fn add_own_clocks(
    alloc: Global,
    list: &mut Seq<Mention>,
    names: &Names,
    model: &BlifModel,
) -> Result<(), NoMemory>
    requires { IsModel model.now }
    ensures { OnOk result (list.new ≡ list.old ++ map (numbered names.now) (others model.now.inputs (on_lines model.now.clocks model.now.clock_lines))) }
{
    if model.clocks.is_empty() {
        return Ok(());
    }
    let inputs = once(alloc, model.inputs.as_slice())?;
    add_clocks(
        list,
        names,
        &inputs,
        model.clocks.as_slice(),
        model.clock_lines.as_slice(),
    )?;
    Ok(())
}

/// Adds the inputs and clocks of a model.
fn add_heads(
    alloc: Global,
    list: &mut Seq<Mention>,
    names: &Names,
    model: &BlifModel,
) -> Result<(), NoMemory>
    requires { IsModel model.now }
    ensures { OnOk result (list.new ≡ list.old ++ map (numbered names.now) (listed_inputs model.now)) }
{
    let clocks = once(alloc, model.clocks.as_slice())?;
    let clock_lines = model.clock_lines.as_slice();
    let input_lines = model.input_lines.as_slice();
    add_inputs(
        list,
        names,
        &clocks,
        clock_lines,
        model.inputs.as_slice(),
        input_lines,
    )?;
    add_own_clocks(alloc, list, names, model)?;
    Ok(())
}

/// What drives the signals of a model or its network, by their numbers among some names.
pub(crate) fn drivers_of(
    alloc: Global,
    names: &Names,
    blif: &Blif,
    tables: &Tables,
    clocks: &[Names],
    part: Part,
    model: &BlifModel,
) -> Result<Seq<Mention>, NoMemory>
    requires tables { AreTables blif.now tables.now }
    requires clocks { AreClocks blif.now clocks.now }
    requires model { IsModel model.now }
    ensures { IfOk result (λ list. list ≡ map (numbered names.now) (drivers_in blif.now (part_of part model.now))) }
{
    let mut list = Seq::new(alloc);
    add_heads(alloc, &mut list, names, model)?;
    add_covers(&mut list, names, covers_of(part, model))?;
    add_latches(&mut list, names, latches_of(part, model))?;
    add_subs(
        &mut list,
        names,
        blif,
        tables,
        clocks,
        Role::Driving,
        subs_of(part, model),
    )?;
    Ok(list)
}
