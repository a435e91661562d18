//! The lines of a cell: of its verdict, or of its classes.

ghost use Rattle.std.specs.Prelude.{◌≡◌, ◌<◌, ◌++◌, ◌∷◌, [], List, None, IfOk, length};
ghost use Rattle.std.specs.Option.{option_copied};
ghost use Rattle.cell_compare.specs.Cells.{HasEarlyLine, IsEarly, IsFlattenedTo};
ghost use Rattle.channel_parts.specs.Classes.{AreClasses};
ghost use Rattle.channel_parts.specs.declared.class.ClassLine.{ClassLine as ClassLineValue};
ghost use Rattle.mode_lines.specs.Lines.{class_lines};
ghost use Rattle.verity_run.specs.Classes.{IsClassed};
ghost use Rattle.verity_run.specs.Reports.{counted};
ghost use Rattle.verity_run.specs.VerdictLines.{circuit_in, model_in};
ghost use Rattle.vrt_model.specs.Circuits.{IsFlat};
ghost use Rattle.vrt_model.specs.Comparison.{cell_at};
ghost use Rattle.vrt_model.specs.VerdictText.{verdict_line};

use crate::refusals::Inputs;
use crate::status::{Count, counted};
use cell_compare::{EarlyCell, Flattened};
use channel_parts::classes;
use mode_lines::class_lines;
use std::alloc::Global;
use vrt_model::{Cell, Circuit, Design, FlatModel, NoMemory, Phase, Rules, Seq, Text, Verdict};
use witness::verdict_text;

/// What is written of a cell.
pub struct CellLines {
    /// What the cell counts for in the status.
    pub count: Count,
    /// Its lines, each with its line feed.
    pub lines: Seq<Text>,
}

/// By hand, so that letting go of one is a call.
impl Drop for CellLines {
    fn drop(self) {
        let CellLines {
            count: _count,
            lines: _lines,
        } = self;
    }
}

/// The flat circuit of what was compared, where one was made.
fn circuit_in(flattened: &Option<Flattened>) -> Option<&Circuit>
    ensures { option_copied result ≡ circuit_in flattened.entry.now }
{
    match flattened {
        Some(found) => Some(found.circuit()),
        None => None,
    }
}

/// The flat model of what was compared, where one was made.
fn model_in(flattened: &Option<Flattened>) -> Option<&FlatModel>
    ensures { option_copied result ≡ model_in flattened.entry.now }
{
    match flattened {
        Some(found) => Some(found.model()),
        None => None,
    }
}

/// A cell by its number.
pub fn cell_of(design: &Design, number: u32) -> &Cell
    requires { number < length design.now.cells }
    ensures { result.now ≡ cell_at design.now number }
{
    &design.cells.as_slice()[number as usize]
}

/// The line of a verdict on a cell, with its line feed. A cycle is named by the flat circuit and the flat model.
pub fn line_of(
    alloc: Global,
    cell: &Cell,
    rules: &Rules,
    verdict: &Verdict,
    flattened: &Option<Flattened>,
) -> Result<Text, NoMemory>
    ensures { IfOk result (λ text. text ≡ verdict_line cell.now.name verdict.now rules.now (circuit_in flattened.now) (model_in flattened.now) ++ 10 ∷ []) }
{
    let circuit = circuit_in(flattened);
    let flat = model_in(flattened);
    let mut line = verdict_text(alloc, &cell.name, verdict, rules, circuit, flat)?;
    line.extend(b"\n")?;
    Ok(line)
}

/// One line of a cell.
fn one_line(alloc: Global, count: Count, line: Text) -> Result<CellLines, NoMemory>
    ensures { IfOk result (λ t. (t.count ≡ count) × (t.lines ≡ line ∷ [])) }
{
    let mut lines = Seq::new(alloc);
    lines.append(line)?;
    Ok(CellLines { count, lines })
}

/// The line of a verdict on a cell, and what it counts for.
pub fn verdict_lines(
    alloc: Global,
    cell: &Cell,
    rules: &Rules,
    verdict: &Verdict,
    flattened: &Option<Flattened>,
) -> Result<CellLines, NoMemory>
    ensures { IfOk result (λ t. (t.count ≡ counted verdict.now) × (t.lines ≡ (verdict_line cell.now.name verdict.now rules.now (circuit_in flattened.now) (model_in flattened.now) ++ 10 ∷ []) ∷ [])) }
{
    let line = line_of(alloc, cell, rules, verdict, flattened)?;
    one_line(alloc, counted(verdict), line)
}

/// The lines of the classes of a flat circuit.
fn lines_of_classes(
    alloc: Global,
    cell: &Cell,
    circuit: &Circuit,
    phases: &Seq<Phase>,
) -> Result<Seq<Text>, NoMemory>
    requires { IsFlat circuit.now }
    ensures { IfOk result (λ lines. (found : List ClassLineValue) × AreClasses circuit.now phases.now found × (lines ≡ class_lines cell.now.name circuit.now found)) }
{
    let found = classes(alloc, circuit, phases)?;
    class_lines(alloc, &cell.name, circuit, &found)
}

/// The lines of the classes of a cell that is compared.
fn class_lines_of(
    alloc: Global,
    inputs: &Inputs,
    number: u32,
    flattened: &Option<Flattened>,
) -> Result<CellLines, NoMemory>
    requires number { number < length inputs.now.design.cells }
    requires early { IsEarly inputs.now.design inputs.now.blif inputs.now.rules number None }
    requires made { IsFlattenedTo inputs.now.design inputs.now.blif inputs.now.rules number None flattened.now }
    ensures { IfOk result (λ t. IsClassed inputs.now.design inputs.now.blif inputs.now.rules number t.count t.lines) }
{
    let cell = cell_of(&inputs.design, number);
    match flattened {
        Some(found) => {
            let lines = lines_of_classes(alloc, cell, found.circuit(), &inputs.rules.phases)?;
            Ok(CellLines {
                count: Count::Nothing,
                lines,
            })
        }
        None => Err(NoMemory),
    }
}

/// The lines of the classes of a cell, or of its verdict where it is not compared.
pub fn found_lines(
    alloc: Global,
    inputs: &Inputs,
    number: u32,
    found: &EarlyCell,
) -> Result<CellLines, NoMemory>
    requires number { number < length inputs.now.design.cells }
    requires early { IsEarly inputs.now.design inputs.now.blif inputs.now.rules number found.now.verdict }
    requires line { HasEarlyLine inputs.now.design inputs.now.blif inputs.now.rules number found.now.verdict found.now.flattened }
    requires made { IsFlattenedTo inputs.now.design inputs.now.blif inputs.now.rules number found.now.verdict found.now.flattened }
    ensures { IfOk result (λ t. IsClassed inputs.now.design inputs.now.blif inputs.now.rules number t.count t.lines) }
{
    match &found.verdict {
        Some(verdict) => verdict_lines(
            alloc,
            cell_of(&inputs.design, number),
            &inputs.rules,
            verdict,
            &found.flattened,
        ),
        None => class_lines_of(alloc, inputs, number, &found.flattened),
    }
}
