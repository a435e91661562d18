//! The report of cells: the lines of each, its verdict or its classes, are put before the next is looked at.

ghost use Rattle.std.specs.Prelude.{◌≡◌, ◌<◌, ◌≤◌, List, Some, IfOk, IfErr, OnOk, length};
ghost use Rattle.std.specs.Io.KnownBytes.{Appends};
ghost use Rattle.cell_compare.specs.Cells.{HasLine, IsFlattenedTo};
ghost use Rattle.verity_run.specs.Classes.{IsBudget, IsClassed, IsOfTask, IsTask};
ghost use Rattle.verity_run.specs.Known.{IsKnown};
ghost use Rattle.verity_run.specs.Messages.{joined};
ghost use Rattle.verity_run.specs.Ready.{IsReady};
ghost use Rattle.verity_run.specs.Reports.{IsChecked, IsJudged, PutsCell, PutsReport, StopsCell, StopsReport, nothing_known, with_count};
ghost use Rattle.verity_run.specs.Runs.{StopsLines};
ghost use Rattle.vrt_model.specs.declared.whole.CellFacts.{CellFacts as FactsValue};
ghost use Rattle.whole_cells.specs.Kept.{AreKept};

use crate::cell_lines::{CellLines, cell_of, found_lines, verdict_lines};
use crate::known::Known;
use crate::puts::put_lines;
use crate::ready::Ready;
use crate::status::{Status, with_count};
use cell_compare::{Compared, Flattened, compare_prepared, early_prepared};
use std::alloc::Global;
use vrt_io::Sink;
use vrt_model::{NoMemory, Verdict};

/// What is asked of each cell.
#[derive(Clone, Copy)]
pub enum Task {
    /// To compare it with its model, with this budget of nodes.
    Check(u32),
    /// To tell the classes of its channel-connected parts.
    Classes,
}

/// A cell that was compared.
pub struct Judged {
    /// Its verdict.
    pub verdict: Verdict,
    /// What was compared, by which what the verdict speaks of is named; none where no circuit was made.
    pub flattened: Option<Flattened>,
}

/// By hand, so that letting go of one is a call.
impl Drop for Judged {
    fn drop(self) {
        let Judged {
            verdict: _verdict,
            flattened: _flattened,
        } = self;
    }
}

/// Compares the cell of a number, by what is known of the cells before; what is known of it then is noted.
pub fn compare_cell(
    alloc: Global,
    budget: u32,
    ready: &Ready,
    number: u32,
    known: &mut Known,
) -> Result<Judged, NoMemory>
    requires budget { IsBudget budget }
    requires ready { IsReady ready.now }
    requires number { number < length ready.now.inputs.design.cells }
    requires known { IsKnown ready.now.inputs.design ready.now.inputs.blif ready.now.inputs.rules known.old.facts.items }
    requires kept { AreKept ready.now.inputs.design ready.now.inputs.blif ready.now.inputs.rules known.old.facts.items known.old.kept }
    ensures judged { IfOk result (λ j. IsJudged ready.now.inputs.design ready.now.inputs.blif ready.now.inputs.rules budget known.old.facts.items number j.verdict known.new.facts.items) }
    ensures line { IfOk result (λ j. HasLine ready.now.inputs.design ready.now.inputs.blif ready.now.inputs.rules number j.verdict j.flattened) }
    ensures made { IfOk result (λ j. IsFlattenedTo ready.now.inputs.design ready.now.inputs.blif ready.now.inputs.rules number (Some j.verdict) j.flattened) }
    ensures known { IsKnown ready.now.inputs.design ready.now.inputs.blif ready.now.inputs.rules known.new.facts.items }
    ensures kept { IfOk result (λ _. AreKept ready.now.inputs.design ready.now.inputs.blif ready.now.inputs.rules known.new.facts.items known.new.kept) }
{
    let compared = compare_prepared(
        alloc,
        budget,
        &ready.prepared,
        &ready.inputs.design,
        &ready.inputs.blif,
        &ready.inputs.rules,
        number,
        known.facts.as_slice(),
        &mut known.kept,
    )?;
    let Compared {
        verdict,
        facts,
        flattened,
    } = compared;
    known.note(number, facts);
    Ok(Judged { verdict, flattened })
}

/// The verdict's line of the cell of a number, which is compared.
fn checked(
    alloc: Global,
    budget: u32,
    ready: &Ready,
    number: u32,
    known: &mut Known,
) -> Result<CellLines, NoMemory>
    requires budget { IsBudget budget }
    requires ready { IsReady ready.now }
    requires number { number < length ready.now.inputs.design.cells }
    requires known { IsKnown ready.now.inputs.design ready.now.inputs.blif ready.now.inputs.rules known.old.facts.items }
    requires kept { AreKept ready.now.inputs.design ready.now.inputs.blif ready.now.inputs.rules known.old.facts.items known.old.kept }
    ensures checked { IfOk result (λ t. IsChecked ready.now.inputs.design ready.now.inputs.blif ready.now.inputs.rules budget known.old.facts.items number t.count t.lines known.new.facts.items) }
    ensures known { IsKnown ready.now.inputs.design ready.now.inputs.blif ready.now.inputs.rules known.new.facts.items }
    ensures kept { IfOk result (λ _. AreKept ready.now.inputs.design ready.now.inputs.blif ready.now.inputs.rules known.new.facts.items known.new.kept) }
{
    let found = compare_cell(alloc, budget, ready, number, known)?;
    let cell = cell_of(&ready.inputs.design, number);
    verdict_lines(
        alloc,
        cell,
        &ready.inputs.rules,
        &found.verdict,
        &found.flattened,
    )
}

/// The lines of the classes of the cell of a number, or of its verdict where it is skipped or not supported.
fn classed(alloc: Global, ready: &Ready, number: u32) -> Result<CellLines, NoMemory>
    requires ready { IsReady ready.now }
    requires number { number < length ready.now.inputs.design.cells }
    ensures { IfOk result (λ t. IsClassed ready.now.inputs.design ready.now.inputs.blif ready.now.inputs.rules number t.count t.lines) }
{
    let found = early_prepared(
        alloc,
        &ready.prepared,
        &ready.inputs.design,
        &ready.inputs.blif,
        &ready.inputs.rules,
        number,
    )?;
    found_lines(alloc, &ready.inputs, number, &found)
}

/// What is written of the cell of a number.
fn lines_for(
    alloc: Global,
    task: Task,
    ready: &Ready,
    number: u32,
    known: &mut Known,
) -> Result<CellLines, NoMemory>
    requires task { IsTask task }
    requires ready { IsReady ready.now }
    requires number { number < length ready.now.inputs.design.cells }
    requires known { IsKnown ready.now.inputs.design ready.now.inputs.blif ready.now.inputs.rules known.old.facts.items }
    requires kept { AreKept ready.now.inputs.design ready.now.inputs.blif ready.now.inputs.rules known.old.facts.items known.old.kept }
    ensures lines { IfOk result (λ t. IsOfTask task ready.now.inputs known.old.facts.items number t.count t.lines known.new.facts.items) }
    ensures known { IsKnown ready.now.inputs.design ready.now.inputs.blif ready.now.inputs.rules known.new.facts.items }
    ensures kept { IfOk result (λ _. AreKept ready.now.inputs.design ready.now.inputs.blif ready.now.inputs.rules known.new.facts.items known.new.kept) }
{
    match task {
        Task::Check(budget) => checked(alloc, budget, ready, number, known),
        Task::Classes => classed(alloc, ready, number),
    }
}

/// Puts the lines of a cell, and counts it: the status with it, or the status with which the run ends here.
pub fn put_cell<O: Sink>(found: &CellLines, status: Status, out: &mut O) -> Result<Status, Status>
    ensures more { IfOk result (λ more. more ≡ with_count status found.now.count) }
    ensures put { OnOk result (Appends (O.written out.old) (O.written out.new) (joined found.now.lines)) }
    ensures stopped { IfErr result (λ end. StopsLines end found.now.lines (O.written out.old) (O.written out.new) (O.faults out.old) (O.faults out.new)) }
    ensures later { O.faults out.old ≤ O.faults out.new }
{
    match put_lines(out, found.lines.as_slice()) {
        Ok(()) => Ok(with_count(status, found.count)),
        Err(end) => Err(end),
    }
}

/// Looks at a cell and puts its lines: the status with it, or the status with which the run ends here.
fn report_cell<O: Sink>(
    alloc: Global,
    task: Task,
    ready: &Ready,
    number: u32,
    status: Status,
    known: &mut Known,
    out: &mut O,
) -> Result<Status, Status>
    requires task { IsTask task }
    requires ready { IsReady ready.now }
    requires number { number < length ready.now.inputs.design.cells }
    requires known { IsKnown ready.now.inputs.design ready.now.inputs.blif ready.now.inputs.rules known.old.facts.items }
    requires kept { AreKept ready.now.inputs.design ready.now.inputs.blif ready.now.inputs.rules known.old.facts.items known.old.kept }
    ensures more { IfOk result (λ more. PutsCell (IsOfTask task ready.now.inputs) known.old.facts.items number status more known.new.facts.items (O.written out.old) (O.written out.new)) }
    ensures stopped { IfErr result (λ end. StopsCell (IsOfTask task ready.now.inputs) known.old.facts.items number end (O.written out.old) (O.written out.new) (O.faults out.old) (O.faults out.new)) }
    ensures known { IsKnown ready.now.inputs.design ready.now.inputs.blif ready.now.inputs.rules known.new.facts.items }
    ensures kept { IfOk result (λ _. AreKept ready.now.inputs.design ready.now.inputs.blif ready.now.inputs.rules known.new.facts.items known.new.kept) }
    ensures later { O.faults out.old ≤ O.faults out.new }
{
    match lines_for(alloc, task, ready, number, known) {
        Ok(found) => put_cell(&found, status, out),
        Err(_) => Err(Status::NoMemory),
    }
}

/// Looks at the cells that are asked for, and puts the lines of each before it looks at the next: the status of the report, or
/// the status with which the run ends before its end.
fn report_known<O: Sink>(
    alloc: Global,
    task: Task,
    ready: &Ready,
    known: &mut Known,
    out: &mut O,
) -> Result<Status, Status>
    requires task { IsTask task }
    requires ready { IsReady ready.now }
    requires known { IsKnown ready.now.inputs.design ready.now.inputs.blif ready.now.inputs.rules known.old.facts.items }
    requires kept { AreKept ready.now.inputs.design ready.now.inputs.blif ready.now.inputs.rules known.old.facts.items known.old.kept }
    ensures put { IfOk result (λ status. PutsReport (IsOfTask task ready.now.inputs) known.old.facts.items ready.now.cells status known.new.facts.items (O.written out.old) (O.written out.new)) }
    ensures stopped { IfErr result (λ end. StopsReport (IsOfTask task ready.now.inputs) known.old.facts.items ready.now.cells end (O.written out.old) (O.written out.new) (O.faults out.old) (O.faults out.new)) }
    ensures later { O.faults out.old ≤ O.faults out.new }
{
    let mut status = Status::AllEqual;
    for number in ready.cells.as_slice() {
        match report_cell(alloc, task, ready, *number, status, known, out) {
            Ok(more) => status = more,
            Err(end) => return Err(end),
        }
    }
    Ok(status)
}

/// Looks at the cells that are asked for, where nothing is known of any at first.
pub fn report_cells<O: Sink>(
    alloc: Global,
    task: Task,
    ready: &Ready,
    out: &mut O,
) -> Result<Status, Status>
    requires task { IsTask task }
    requires ready { IsReady ready.now }
    ensures put { IfOk result (λ status. (known : List FactsValue) × PutsReport (IsOfTask task ready.now.inputs) (nothing_known ready.now.inputs.design) ready.now.cells status known (O.written out.old) (O.written out.new)) }
    ensures stopped { IfErr result (λ end. StopsReport (IsOfTask task ready.now.inputs) (nothing_known ready.now.inputs.design) ready.now.cells end (O.written out.old) (O.written out.new) (O.faults out.old) (O.faults out.new)) }
    ensures later { O.faults out.old ≤ O.faults out.new }
{
    match Known::nothing(alloc, ready.inputs.design.cells.len()) {
        Ok(nothing) => {
            let mut known = nothing;
            report_known(alloc, task, ready, &mut known, out)
        }
        Err(_) => Err(Status::NoMemory),
    }
}
