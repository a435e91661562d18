//! Whether the order matters in which named ports of a cell rise, with the line that says so.

ghost use Rattle.std.specs.Prelude.{◌≡◌, ℕ, ◌<◌, ◌≤◌, [], length, slice_get, unwrap_or, IfErr, IfOk};
ghost use Rattle.arrival_lines.specs.ArrivalLines.{IsArrivalTold, arrival_line, port_name};
ghost use Rattle.arrival_lines.specs.LineTexts.{no_line, step_names};
ghost use Rattle.arrival_lines.specs.RisingNames.{AreNamed, rising_fault};
ghost use Rattle.cell_room.specs.Compared.{AreInputs, IsFlattened, comparison};
ghost use Rattle.mode_lines.specs.Lists.{Tells};
ghost use Rattle.rule_index.specs.Tables.{AreRuleTables};
ghost use Rattle.vrt_model.specs.Comparison.{cell_at, phase_at};
ghost use Rattle.vrt_model.specs.Equal.{IsPhaseEqual};
ghost use Rattle.vrt_model.specs.Held.{variable_names};
ghost use Rattle.vrt_model.specs.declared.blif.Blif.{Blif as BlifValue};
ghost use Rattle.vrt_model.specs.declared.design.Design.{Design as DesignValue};
ghost use Rattle.vrt_model.specs.declared.rules.Rules.{Rules as RulesValue};

use crate::lines::{budget_line, many_line, no_line, step_names, yes_line};
use crate::rising::{CellPorts, places_of};
use cell_compare::Flattened;
use domino_cells::monotone_made;
use domino_order::Arrival;
use hold_groups::variables;
use mode_lines::AtFault;
use rule_index::RuleIndex;
use std::alloc::Global;
use vrt_model::{Cell, Design, NoMemory, Phase, Rules, Seq, Text};

/// What is told of the order in which ports rise.
#[derive(Drop)]
pub struct ArrivalLine {
    /// Whether it matters.
    pub arrival: Arrival,
    /// The line that says so, with its line feed.
    pub line: Text,
}

/// A cell by its number.
fn cell_of(design: &Design, number: u32) -> &Cell
    requires { number < length design.now.cells }
    ensures { result.now ≡ cell_at design.now number }
{
    &design.cells.as_slice()[number as usize]
}

/// A phase by its number.
fn phase_of(rules: &Rules, number: u32) -> &Phase
    requires { number < length rules.now.phases }
    ensures { result.now ≡ phase_at rules.now number }
{
    &rules.phases.as_slice()[number as usize]
}

/// The name of a port by its place, empty where there is none.
fn port_name(cell: &Cell, place: u32) -> &[u8]
    ensures { result.now ≡ unwrap_or (slice_get cell.now.ports place) [] }
{
    match cell.ports.get(place as usize) {
        Some(name) => name.as_bytes(),
        None => &[],
    }
}

/// The names of a step's bits in a phase of what was made of a cell.
fn names_at(
    alloc: Global,
    flattened: &Flattened,
    phase: u32,
    rising: &[Text],
) -> Result<Seq<Text>, NoMemory>
    ensures { IfOk result (λ names. (design : DesignValue) (rules : RulesValue) (cell : ℕ) → names ≡ step_names (variable_names (comparison design rules cell flattened.now) phase) rising.now) }
{
    match variables(
        alloc,
        flattened.circuit(),
        flattened.model(),
        flattened.groups(),
        phase,
    ) {
        Ok(vars) => step_names(alloc, vars.names.as_slice(), rising),
        Err(_) => Err(NoMemory),
    }
}

/// The line where a port rises at these bits, and it does not go well.
fn failing_line(
    alloc: Global,
    design: &Design,
    rules: &Rules,
    cell: u32,
    flattened: &Flattened,
    phase: u32,
    rising: &[Text],
    port: u32,
    bits: &[bool],
) -> Result<Text, NoMemory>
    requires cell { cell < length design.now.cells }
    requires phase { phase < length rules.now.phases }
    ensures { IfOk result (λ text. text ≡ no_line (cell_at design.now cell).name (phase_at rules.now phase).name (port_name (comparison design.now rules.now cell flattened.now) port) (step_names (variable_names (comparison design.now rules.now cell flattened.now) phase) rising.now) bits.now) }
{
    let own = cell_of(design, cell);
    let names = names_at(alloc, flattened, phase, rising)?;
    no_line(
        alloc,
        own.name.as_bytes(),
        phase_of(rules, phase).name.as_bytes(),
        port_name(own, port),
        names.as_slice(),
        bits,
    )
}

/// The line of what is told.
fn line_of(
    alloc: Global,
    design: &Design,
    rules: &Rules,
    cell: u32,
    flattened: &Flattened,
    phase: u32,
    rising: &[Text],
    arrival: &Arrival,
) -> Result<Text, NoMemory>
    requires cell { cell < length design.now.cells }
    requires phase { phase < length rules.now.phases }
    ensures { IfOk result (λ text. text ≡ arrival_line (comparison design.now rules.now cell flattened.now) phase rising.now arrival.now) }
{
    let name = cell_of(design, cell).name.as_bytes();
    let in_phase = phase_of(rules, phase).name.as_bytes();
    match arrival {
        Arrival::Yes => yes_line(alloc, name, in_phase),
        Arrival::No { port, valuation } => failing_line(
            alloc,
            design,
            rules,
            cell,
            flattened,
            phase,
            rising,
            *port,
            valuation.bits.as_slice(),
        ),
        Arrival::TooMany { count } => many_line(alloc, name, *count),
        Arrival::Budget { nodes } => budget_line(alloc, name, in_phase, *nodes),
    }
}

/// What is told where the ports at these places rise.
fn told_of(
    alloc: Global,
    budget: u32,
    index: &RuleIndex,
    design: &Design,
    rules: &Rules,
    cell: u32,
    flattened: &Flattened,
    phase: u32,
    names: &[Text],
    rising: &Seq<u32>,
) -> Result<ArrivalLine, NoMemory>
    requires budget { (65536 ≤ budget) × (budget ≤ 64000000) }
    requires tables { AreRuleTables rules.now index.now }
    requires made { (blif : BlifValue) × (m : ℕ) × AreInputs design.now blif rules.now cell × IsFlattened design.now blif rules.now cell m flattened.now }
    requires phase { phase < length rules.now.phases }
    requires equal { IsPhaseEqual (comparison design.now rules.now cell flattened.now) phase }
    requires some { 0 < length names.now }
    requires named { AreNamed (comparison design.now rules.now cell flattened.now) names.now rising.now }
    ensures { IfOk result (λ a. (blif : BlifValue) → IsArrivalTold (comparison design.now rules.now cell flattened.now) blif budget phase names.now a.arrival a.line) }
{
    let arrival = monotone_made(
        alloc, budget, index, design, rules, cell, flattened, phase, rising,
    )?;
    let line = line_of(
        alloc, design, rules, cell, flattened, phase, names, &arrival,
    )?;
    Ok(ArrivalLine { arrival, line })
}

/// The places of the input ports of these names.
fn rising_places(
    alloc: Global,
    design: &Design,
    cell: u32,
    flattened: &Flattened,
    names: &[Text],
) -> Result<Seq<u32>, AtFault>
    requires { cell < length design.now.cells }
    ensures ok { IfOk result (λ places. (rules : RulesValue) → AreNamed (comparison design.now rules cell flattened.now) names.now places) }
    ensures err { IfErr result (λ fault. (rules : RulesValue) → Tells (rising_fault (comparison design.now rules cell flattened.now) names.now) fault) }
{
    let ports = CellPorts {
        names: cell_of(design, cell).ports.as_slice(),
        roles: flattened.pairing().ports.as_slice(),
    };
    places_of(alloc, ports, names)
}

/// Whether the order matters in which the ports of these names rise within a phase of an equal cell, and the line that says so: `arrive C
/// phase P yes`, `arrive C phase P no PORT at A`, `arrive C variables COUNT` or `arrive C budget NODES phase P`, from the tables of the rules
/// and what was made of the cell. In `A` stand the bits of the phase's variables, and behind them `N+=BIT` for each port that rises, which
/// says whether it has arrived before. Or the first name that no input port has, or that stands before.
pub fn arrival_told(
    alloc: Global,
    budget: u32,
    index: &RuleIndex,
    design: &Design,
    rules: &Rules,
    cell: u32,
    flattened: &Flattened,
    phase: u32,
    names: &Seq<Text>,
) -> Result<ArrivalLine, AtFault>
    requires budget { (65536 ≤ budget) × (budget ≤ 64000000) }
    requires tables { AreRuleTables rules.now index.now }
    requires made { (blif : BlifValue) × (m : ℕ) × AreInputs design.now blif rules.now cell × IsFlattened design.now blif rules.now cell m flattened.now }
    requires phase { phase < length rules.now.phases }
    requires equal { IsPhaseEqual (comparison design.now rules.now cell flattened.now) phase }
    requires some { 0 < length names.now }
    ensures ok { IfOk result (λ a. (blif : BlifValue) → IsArrivalTold (comparison design.now rules.now cell flattened.now) blif budget phase names.now a.arrival a.line) }
    ensures err { IfErr result (Tells (rising_fault (comparison design.now rules.now cell flattened.now) names.now)) }
{
    let names = names.as_slice();
    match rising_places(alloc, design, cell, flattened, names) {
        Ok(rising) => match told_of(
            alloc, budget, index, design, rules, cell, flattened, phase, names, &rising,
        ) {
            Ok(told) => Ok(told),
            Err(_) => Err(AtFault::NoMemory),
        },
        Err(fault) => Err(fault),
    }
}
