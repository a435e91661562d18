//! A cell at one valuation of its variables in a phase.

ghost use Rattle.std.specs.Prelude.{◌≡◌, ◌<◌, None, Some, bytes_eq, IfErr, IfOk, length, position};
ghost use Rattle.cell_compare.specs.Cells.{HasEarlyLine, IsEarly, IsFlattenedTo};
ghost use Rattle.cell_room.specs.Compared.{comparison};
ghost use Rattle.verity_run.specs.Named.{cell_asked, phase_asked};
ghost use Rattle.verity_run.specs.Ready.{IsReady};
ghost use Rattle.verity_run.specs.Refusals.{Tells};
ghost use Rattle.verity_run.specs.Replays.{HasValueLines, IsNoList, IsNoPhase, IsNoValuation, IsPointOf, IsReplayOf, IsReplayed, IsShown, IsSupportedWith, OfReplay, RefusesFault, items_asked, list_in};
ghost use Rattle.vrt_model.specs.Circuits.{IsFlat};
ghost use Rattle.vrt_model.specs.Comparison.{phase_at};
ghost use Rattle.vrt_model.specs.Held.{sources_of, variable_names};
ghost use Rattle.vrt_model.specs.declared.rules.Phase.{Phase as PhaseValue};

use crate::cell_lines::{CellLines, cell_of, verdict_lines};
use crate::messages;
use crate::ready::Ready;
use crate::refusals::{Inputs, Refusal, told};
use crate::status::Count;
use cell_compare::{EarlyCell, Flattened, early_prepared};
use hold_groups::variables;
use mode_lines::{
    AtFault, AtItem, CellPhase, ListFault, meets_at, read_list, replay_at, replay_lines,
    valuation_at,
};
use rule_index::lowered_name;
use std::alloc::Global;
use vrt_model::{NoMemory, Phase, Rules, Seq, Text, Vars};

/// The number of the cell of a name on the command line, which was found before.
pub fn cell_number(alloc: Global, ready: &Ready, word: &str) -> Result<u32, NoMemory>
    requires { IsReady ready.now }
    ensures { IfOk result (λ n. cell_asked ready.now.inputs.design word.now ≡ Some n) }
{
    let name = lowered_name(alloc, word.as_bytes())?;
    match ready.prepared.index.cells.get(name.as_bytes()) {
        Some(number) => match u32::try_from(*number) {
            Ok(number) => Ok(number),
            Err(_) => Err(NoMemory),
        },
        None => Err(NoMemory),
    }
}

/// The place of the phase of a name.
fn place_of(phases: &[Phase], name: &[u8]) -> Option<usize>
    ensures { result ≡ position (λ (p : PhaseValue). bytes_eq p.name name.now) phases.now }
{
    phases
        .iter()
        .position(|phase| phase.name.as_bytes() == name)
}

/// The number of the phase of a name on the command line, or the refusal where it is not there.
pub fn phase_number(alloc: Global, rules: &Rules, word: &str) -> Result<u32, Refusal>
    ensures ok { IfOk result (λ p. phase_asked rules.now word.now ≡ Some p) }
    ensures err { IfErr result (Tells (IsNoPhase rules.now word.now)) }
{
    let name = lowered_name(alloc, word.as_bytes())?;
    match place_of(rules.phases.as_slice(), name.as_bytes()) {
        Some(place) => match u32::try_from(place) {
            Ok(number) => Ok(number),
            Err(_) => Err(Refusal::NoMemory),
        },
        None => Err(told(messages::no_name(alloc, name.as_bytes()))),
    }
}

/// The bytes of a list, none where there is none.
fn list_of<'a>(at: Option<&'a str>) -> &'a [u8]
    ensures { result.now ≡ list_in at.entry }
{
    match at {
        Some(list) => list.as_bytes(),
        None => &[],
    }
}

/// The names with bits of a list, or the refusal of another form.
fn items_of(alloc: Global, at: Option<&str>) -> Result<Seq<AtItem>, Refusal>
    ensures ok { IfOk result (λ items. items_asked at.entry ≡ Some items) }
    ensures err { IfErr result (Tells (IsNoList at.entry)) }
{
    match read_list(alloc, list_of(at)) {
        Ok(items) => Ok(items),
        Err(ListFault::Form) => Err(told(messages::no_form(alloc))),
        Err(ListFault::NoMemory) => Err(Refusal::NoMemory),
    }
}

/// The cell in the phase.
fn point_of<'a>(
    inputs: &'a Inputs,
    number: u32,
    place: u32,
    made: &'a Flattened,
    vars: &'a Vars,
) -> CellPhase<'a>
    ensures { IsPointOf result inputs.entry.now.design inputs.entry.now.rules number place made.entry.now vars.entry.now }
{
    CellPhase {
        design: &inputs.design,
        rules: &inputs.rules,
        cell: number,
        circuit: made.circuit(),
        groups: made.groups(),
        sources: &vars.sources,
        phase: place,
    }
}

/// The lines of what the nets show at a valuation.
fn lines_at(
    alloc: Global,
    inputs: &Inputs,
    number: u32,
    place: u32,
    phase: &Phase,
    made: &Flattened,
    vars: &Vars,
    bits: &[bool],
) -> Result<Seq<Text>, NoMemory>
    requires number { number < length inputs.now.design.cells }
    requires phase { phase.now ≡ phase_at inputs.now.rules place }
    requires flat { IsFlat made.now.circuit }
    requires sources { vars.now.sources ≡ sources_of (comparison inputs.now.design inputs.now.rules number made.now) place }
    ensures { IfOk result (HasValueLines (comparison inputs.now.design inputs.now.rules number made.now) place bits.now) }
{
    let at = point_of(inputs, number, place, made, vars);
    let meets = meets_at(at, bits);
    match replay_at(alloc, at, phase, bits) {
        Ok(values) => {
            let cell = cell_of(&inputs.design, number);
            replay_lines(
                alloc,
                &cell.name,
                &phase.name,
                meets,
                made.circuit(),
                &values,
            )
        }
        Err(_) => Err(NoMemory),
    }
}

/// The refusal of names that do not stand for what is asked.
pub fn at_refusal(alloc: Global, fault: &AtFault) -> Refusal
    ensures { RefusesFault fault.now result }
{
    match fault {
        AtFault::NoSuchName { name } => told(messages::no_name(alloc, name.as_bytes())),
        AtFault::Twice { name } => told(messages::twice(alloc, name.as_bytes())),
        AtFault::NoMemory => Refusal::NoMemory,
    }
}

/// The same at the valuation that names with bits give.
fn shown_by(
    alloc: Global,
    inputs: &Inputs,
    number: u32,
    place: u32,
    phase: &Phase,
    items: &Seq<AtItem>,
    made: &Flattened,
    vars: &Vars,
) -> Result<CellLines, Refusal>
    requires number { number < length inputs.now.design.cells }
    requires phase { phase.now ≡ phase_at inputs.now.rules place }
    requires flat { IsFlat made.now.circuit }
    requires sources { vars.now.sources ≡ sources_of (comparison inputs.now.design inputs.now.rules number made.now) place }
    requires names { vars.now.names ≡ variable_names (comparison inputs.now.design inputs.now.rules number made.now) place }
    ensures ok { IfOk result (λ t. IsShown (comparison inputs.now.design inputs.now.rules number made.now) place items.now t.count t.lines) }
    ensures err { IfErr result (Tells (IsNoValuation (comparison inputs.now.design inputs.now.rules number made.now) place items.now)) }
{
    match valuation_at(alloc, &vars.names, items) {
        Ok(valuation) => {
            let bits = valuation.bits.as_slice();
            let lines = lines_at(alloc, inputs, number, place, phase, made, vars, bits)?;
            Ok(CellLines {
                count: Count::Nothing,
                lines,
            })
        }
        Err(fault) => Err(at_refusal(alloc, &fault)),
    }
}

/// The same with the variables of the phase.
fn shown_with(
    alloc: Global,
    inputs: &Inputs,
    number: u32,
    place: u32,
    items: &Seq<AtItem>,
    made: &Flattened,
) -> Result<CellLines, Refusal>
    requires number { number < length inputs.now.design.cells }
    requires flat { IsFlat made.now.circuit }
    ensures ok { IfOk result (λ t. IsShown (comparison inputs.now.design inputs.now.rules number made.now) place items.now t.count t.lines) }
    ensures err { IfErr result (Tells (IsNoValuation (comparison inputs.now.design inputs.now.rules number made.now) place items.now)) }
{
    let Some(phase) = inputs.rules.phases.get(place as usize) else {
        return Err(Refusal::NoMemory);
    };
    match variables(alloc, made.circuit(), made.model(), made.groups(), place) {
        Ok(vars) => shown_by(alloc, inputs, number, place, phase, items, made, &vars),
        Err(_) => Err(Refusal::NoMemory),
    }
}

/// The lines of a replay of a cell, or of its verdict where it is not compared.
fn found_replay(
    alloc: Global,
    inputs: &Inputs,
    number: u32,
    place: u32,
    items: &Seq<AtItem>,
    found: &EarlyCell,
) -> Result<CellLines, Refusal>
    requires number { number < length inputs.now.design.cells }
    requires early { IsEarly inputs.now.design inputs.now.blif inputs.now.rules number found.now.verdict }
    requires line { HasEarlyLine inputs.now.design inputs.now.blif inputs.now.rules number found.now.verdict found.now.flattened }
    requires made { IsFlattenedTo inputs.now.design inputs.now.blif inputs.now.rules number found.now.verdict found.now.flattened }
    ensures ok { IfOk result (λ t. IsReplayOf inputs.now.design inputs.now.blif inputs.now.rules number place items.now t.count t.lines) }
    ensures err { IfErr result (Tells (λ line. IsSupportedWith inputs.now.design inputs.now.blif inputs.now.rules number (λ k. IsNoValuation k place items.now line))) }
{
    match &found.verdict {
        Some(verdict) => {
            let cell = cell_of(&inputs.design, number);
            let lines = verdict_lines(alloc, cell, &inputs.rules, verdict, &found.flattened)?;
            Ok(lines)
        }
        None => match &found.flattened {
            Some(made) => shown_with(alloc, inputs, number, place, items, made),
            None => Err(Refusal::NoMemory),
        },
    }
}

/// The lines of a replay, or the refusal of the phase, of the list, or of its names.
pub fn replayed(
    alloc: Global,
    ready: &Ready,
    cell: &str,
    phase: &str,
    at: Option<&str>,
) -> Result<CellLines, Refusal>
    requires { IsReady ready.now }
    ensures ok { IfOk result (λ t. IsReplayed ready.now.inputs.design ready.now.inputs.blif ready.now.inputs.rules cell.now phase.now at.entry t.count t.lines) }
    ensures err { IfErr result (Tells (OfReplay ready.now.inputs.design ready.now.inputs.blif ready.now.inputs.rules cell.now phase.now at.entry)) }
{
    let inputs = &ready.inputs;
    let place = phase_number(alloc, &inputs.rules, phase)?;
    let items = items_of(alloc, at)?;
    let number = cell_number(alloc, ready, cell)?;
    let found = early_prepared(
        alloc,
        &ready.prepared,
        &inputs.design,
        &inputs.blif,
        &inputs.rules,
        number,
    )?;
    found_replay(alloc, inputs, number, place, &items, &found)
}
