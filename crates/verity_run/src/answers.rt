//! What is written for a request on what was read.

ghost use Rattle.std.specs.Prelude.{◌≡◌, ◌≢◌, Some};
ghost use Rattle.generator.specs.Texts.{IsSize};
ghost use Rattle.verity_run.specs.Asked.{AreAsked, IsFitting, ReportsGenerated, cell_word, nodes_of};
ghost use Rattle.verity_run.specs.Classes.{IsBudget, IsClassed};
ghost use Rattle.verity_run.specs.Given.{ByFile};
ghost use Rattle.verity_run.specs.Messages.{last_line};
ghost use Rattle.verity_run.specs.Ready.{IsReady};
ghost use Rattle.verity_run.specs.Replays.{BeginsReplay};
ghost use Rattle.verity_run.specs.Reports.{Begins, Reports, ReportsCells, with_count};
ghost use Rattle.verity_run.specs.Runs.{AnswersArrival, AnswersInputs, AnswersReplay, BeginsInputs, Ends, PutsLine};
ghost use Rattle.verity_run.specs.Writes.{BeginsBlif, IsBlifAnswer};

use crate::arrivals::{OneLine, arrival_for};
use crate::messages;
use crate::puts::{refuse, tell};
use crate::ready::Ready;
use crate::replays::replayed;
use crate::report::{Task, put_cell, report_cells};
use crate::status::{Status, with_count};
use crate::writes::blif_for;
use command_line::Request;
use std::alloc::Global;
use vrt_io::Sink;

/// The budget of nodes for each cell.
fn nodes_of(budget: Option<u32>) -> u32
    ensures { result ≡ nodes_of budget }
{
    budget.unwrap_or(4_000_000)
}

/// Checks the cells that are asked for.
fn check_cells<O: Sink>(alloc: Global, budget: u32, ready: &Ready, out: &mut O) -> Status
    requires budget { IsBudget budget }
    requires ready { IsReady ready.now }
    ensures { Ends (ReportsCells ready.now.inputs.design ready.now.inputs.blif ready.now.inputs.rules budget ready.now.cells) (Begins (ReportsCells ready.now.inputs.design ready.now.inputs.blif ready.now.inputs.rules budget) ready.now.cells)
        result (O.written out.old) (O.written out.new) (O.faults out.old) (O.faults out.new) }
{
    match report_cells(alloc, Task::Check(budget), ready, out) {
        Ok(status) => status,
        Err(end) => end,
    }
}

/// Tells the classes of the parts of the cells that are asked for.
fn class_cells<O: Sink>(alloc: Global, ready: &Ready, out: &mut O) -> Status
    requires ready { IsReady ready.now }
    ensures { Ends (Reports (IsClassed ready.now.inputs.design ready.now.inputs.blif ready.now.inputs.rules) ready.now.cells) (Begins (Reports (IsClassed ready.now.inputs.design ready.now.inputs.blif ready.now.inputs.rules)) ready.now.cells)
        result (O.written out.old) (O.written out.new) (O.faults out.old) (O.faults out.new) }
{
    match report_cells(alloc, Task::Classes, ready, out) {
        Ok(status) => status,
        Err(end) => end,
    }
}

/// Puts the last line of a size that was generated and checked.
fn tell_generated<O: Sink>(alloc: Global, size: u32, status: Status, out: &mut O) -> Status
    requires size { IsSize size }
    requires fault { status ≢ Status.WriteFault }
    requires memory { status ≢ Status.NoMemory }
    ensures { PutsLine status result (last_line size) (O.written out.old) (O.written out.new) (O.faults out.old) (O.faults out.new) }
{
    match messages::generated(alloc, size) {
        Ok(line) => tell(out, line.as_bytes(), status),
        Err(_) => Status::NoMemory,
    }
}

/// Checks the cells of a size that was generated, and puts one line more.
fn check_generated<O: Sink>(
    alloc: Global,
    size: u32,
    budget: u32,
    ready: &Ready,
    out: &mut O,
) -> Status
    requires size { IsSize size }
    requires budget { IsBudget budget }
    requires ready { IsReady ready.now }
    ensures { Ends (ReportsGenerated ready.now.inputs.design ready.now.inputs.blif ready.now.inputs.rules budget size ready.now.cells) (Begins (ReportsCells ready.now.inputs.design ready.now.inputs.blif ready.now.inputs.rules budget) ready.now.cells)
        result (O.written out.old) (O.written out.new) (O.faults out.old) (O.faults out.new) }
{
    match report_cells(alloc, Task::Check(budget), ready, out) {
        Ok(status) => tell_generated(alloc, size, status, out),
        Err(end) => end,
    }
}

/// Shows the nets of a cell in a phase at one valuation.
fn replay_cell<O: Sink>(
    alloc: Global,
    ready: &Ready,
    cell: &str,
    phase: &str,
    at: Option<&str>,
    out: &mut O,
) -> Status
    requires ready { IsReady ready.now }
    ensures { Ends (AnswersReplay ready.now.inputs.design ready.now.inputs.blif ready.now.inputs.rules cell.now phase.now at.entry) (BeginsReplay ready.now.inputs.design ready.now.inputs.blif ready.now.inputs.rules cell.now phase.now at.entry)
        result (O.written out.old) (O.written out.new) (O.faults out.old) (O.faults out.new) }
{
    match replayed(alloc, ready, cell, phase, at) {
        Ok(found) => match put_cell(&found, Status::AllEqual, out) {
            Ok(status) => status,
            Err(end) => end,
        },
        Err(refusal) => refuse(out, &refusal),
    }
}

/// Puts the one line of an answer.
fn put_one<O: Sink>(told: &OneLine, out: &mut O) -> Status
    ensures { PutsLine (with_count Status.AllEqual told.now.count) result told.now.line (O.written out.old) (O.written out.new) (O.faults out.old) (O.faults out.new) }
{
    tell(
        out,
        told.line.as_bytes(),
        with_count(Status::AllEqual, told.count),
    )
}

/// Says whether the order matters in which some inputs of a cell rise.
fn arrive_cell<O: Sink>(
    alloc: Global,
    budget: u32,
    ready: &Ready,
    cell: &str,
    phase: &str,
    rise: &str,
    out: &mut O,
) -> Status
    requires budget { IsBudget budget }
    requires ready { IsReady ready.now }
    requires asked { AreAsked ready.now.inputs.design (Some cell.now) ready.now.cells }
    ensures { Ends (AnswersArrival ready.now.inputs.design ready.now.inputs.blif ready.now.inputs.rules budget cell.now phase.now rise.now) (λ lines. ⊥)
        result (O.written out.old) (O.written out.new) (O.faults out.old) (O.faults out.new) }
{
    match arrival_for(alloc, budget, ready, cell, phase, rise) {
        Ok(told) => put_one(&told, out),
        Err(refusal) => refuse(out, &refusal),
    }
}

/// Writes a cell as a BLIF model.
fn blif_cell<O: Sink>(alloc: Global, budget: u32, ready: &Ready, cell: &str, out: &mut O) -> Status
    requires budget { IsBudget budget }
    requires ready { IsReady ready.now }
    requires asked { AreAsked ready.now.inputs.design (Some cell.now) ready.now.cells }
    ensures { Ends (IsBlifAnswer ready.now.inputs.design ready.now.inputs.blif ready.now.inputs.rules budget cell.now) (BeginsBlif ready.now.inputs.design ready.now.inputs.blif ready.now.inputs.rules budget cell.now)
        result (O.written out.old) (O.written out.new) (O.faults out.old) (O.faults out.new) }
{
    match blif_for(alloc, budget, ready, cell) {
        Ok(found) => match put_cell(&found, Status::AllEqual, out) {
            Ok(status) => status,
            Err(end) => end,
        },
        Err(_) => Status::NoMemory,
    }
}

/// Does what a request asks.
pub fn answer<O: Sink>(alloc: Global, request: &Request<'_>, ready: &Ready, out: &mut O) -> Status
    requires fitting { IsFitting request.now }
    requires ready { IsReady ready.now }
    requires asked { AreAsked ready.now.inputs.design (cell_word request.now) ready.now.cells }
    ensures { (words : ByFile) → Ends (AnswersInputs request.now words ready.now.inputs.design ready.now.inputs.blif ready.now.inputs.rules) (BeginsInputs request.now ready.now.inputs.design ready.now.inputs.blif ready.now.inputs.rules)
        result (O.written out.old) (O.written out.new) (O.faults out.old) (O.faults out.new) }
{
    match request {
        Request::Check { budget, .. } => check_cells(alloc, nodes_of(*budget), ready, out),
        Request::Generate { size, budget } => {
            check_generated(alloc, *size, nodes_of(*budget), ready, out)
        }
        Request::Replay {
            cell,
            phase,
            at,
            ..
        } => replay_cell(alloc, ready, *cell, *phase, *at, out),
        Request::Classes { .. } => class_cells(alloc, ready, out),
        Request::Arrive {
            cell,
            phase,
            rise,
            budget,
            ..
        } => arrive_cell(alloc, nodes_of(*budget), ready, *cell, *phase, *rise, out),
        Request::Blif { cell, budget, .. } => {
            blif_cell(alloc, nodes_of(*budget), ready, *cell, out)
        }
    }
}
