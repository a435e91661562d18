//! Whether the order matters in which inputs of a cell rise.

ghost use Rattle.std.specs.Prelude.{◌≡◌, ◌<◌, ◌==◌, ℕ, true, Some, None, IfErr, IfOk, IfSome, cond, length};
ghost use Rattle.cell_compare.specs.Cells.{HasLine};
ghost use Rattle.cell_room.specs.Compared.{IsFlattened, comparison};
ghost use Rattle.mode_lines.specs.NameLists.{names_in};
ghost use Rattle.verity_run.specs.Arrivals.{HasArrivalLine, IsArrival, IsArrivalOf, IsEqualWith, IsFound, IsNoNames, IsNoRising, OfArrival, counted_arrival, is_equal_verdict};
ghost use Rattle.verity_run.specs.Asked.{AreAsked};
ghost use Rattle.verity_run.specs.Classes.{IsBudget};
ghost use Rattle.verity_run.specs.Ready.{IsReady};
ghost use Rattle.verity_run.specs.Refusals.{Tells};
ghost use Rattle.verity_run.specs.Reports.{cell_line, counted, nothing_known};
ghost use Rattle.vrt_model.specs.Equal.{IsPhaseEqual};
ghost use Rattle.whole_cells.specs.Kept.{AreKept};

use crate::cell_lines::{cell_of, line_of};
use crate::known::Known;
use crate::messages;
use crate::ready::Ready;
use crate::refusals::{Refusal, told};
use crate::replays::{at_refusal, cell_number, phase_number};
use crate::report::{Judged, compare_cell};
use crate::status::{Count, counted};
use arrival_lines::{ArrivalLine, arrival_told};
use cell_compare::Flattened;
use domino_order::Arrival;
use mode_lines::{ListFault, read_names};
use std::alloc::Global;
use vrt_model::{NoMemory, Seq, Text, Verdict};

/// The one line that is written.
pub struct OneLine {
    /// What it counts for in the status.
    pub count: Count,
    /// The line, with its line feed.
    pub line: Text,
}

/// By hand, so that letting go of one is a call.
impl Drop for OneLine {
    fn drop(self) {
        let OneLine {
            count: _count,
            line: _line,
        } = self;
    }
}

impl OneLine {
    /// The line.
    pub fn into_line(self) -> Text
        ensures { result ≡ self.line }
    {
        let OneLine {
            count: _count,
            line,
        } = self;
        line
    }
}

/// The names of a list, or the refusal of an empty one.
fn names_of(alloc: Global, rise: &str) -> Result<Seq<Text>, Refusal>
    ensures ok { IfOk result (λ names. names_in rise.now ≡ Some names) }
    ensures some { IfOk result (λ names. 0 < length names) }
    ensures err { IfErr result (Tells (IsNoNames rise.now)) }
{
    match read_names(alloc, rise.as_bytes()) {
        Ok(names) => Ok(names),
        Err(ListFault::Form) => Err(told(messages::no_form(alloc))),
        Err(ListFault::NoMemory) => Err(Refusal::NoMemory),
    }
}

/// Keeps what was judged of a cell, where it is the cell that is looked for.
fn keep(number: u32, cell: u32, judged: Judged, found: &mut Option<Judged>)
    ensures { found.new ≡ cond (number == cell) (Some judged) found.old }
{
    if number == cell {
        *found = Some(judged);
    }
}

/// Compares the cells that are asked for, one behind the other, and keeps what was judged of one of them.
fn judge_all(
    alloc: Global,
    budget: u32,
    ready: &Ready,
    cell: u32,
    known: &mut Known,
    found: &mut Option<Judged>,
) -> Result<(), NoMemory>
    requires budget { IsBudget budget }
    requires ready { IsReady ready.now }
    requires known { known.old.facts.items ≡ nothing_known ready.now.inputs.design }
    requires kept { AreKept ready.now.inputs.design ready.now.inputs.blif ready.now.inputs.rules known.old.facts.items known.old.kept }
    requires none { found.old ≡ None }
    ensures { IfOk result (λ _. IfSome found.new (IsFound ready.now.inputs.design ready.now.inputs.blif ready.now.inputs.rules budget ready.now.cells cell)) }
{
    for number in ready.cells.as_slice() {
        let judged = compare_cell(alloc, budget, ready, *number, known)?;
        keep(*number, cell, judged, found);
    }
    Ok(())
}

/// What is judged of a cell, where the cells that are asked for are compared one behind the other; none where it is not among them.
pub fn judged(
    alloc: Global,
    budget: u32,
    ready: &Ready,
    cell: u32,
) -> Result<Option<Judged>, NoMemory>
    requires budget { IsBudget budget }
    requires ready { IsReady ready.now }
    ensures { IfOk result (λ found. IfSome found (IsFound ready.now.inputs.design ready.now.inputs.blif ready.now.inputs.rules budget ready.now.cells cell)) }
{
    let mut known = Known::nothing(alloc, ready.inputs.design.cells.len())?;
    let mut found = None;
    judge_all(alloc, budget, ready, cell, &mut known, &mut found)?;
    Ok(found)
}

/// What an answer counts for.
fn counted_arrival(arrival: &Arrival) -> Count
    ensures { result ≡ counted_arrival arrival.now }
{
    match arrival {
        Arrival::Yes => Count::Nothing,
        Arrival::No { .. } => Count::Faulty,
        Arrival::TooMany { .. } | Arrival::Budget { .. } => Count::Pending,
    }
}

/// The line of what is told, with what it counts for.
fn one_line(told: ArrivalLine) -> OneLine
    ensures { (result.count ≡ counted_arrival told.arrival) × (result.line ≡ told.line) }
{
    let ArrivalLine { arrival, line } = told;
    OneLine {
        count: counted_arrival(&arrival),
        line,
    }
}

/// The line of the answer on an equal cell, or the refusal of a name.
fn told_order(
    alloc: Global,
    budget: u32,
    ready: &Ready,
    number: u32,
    place: u32,
    names: &Seq<Text>,
    made: &Flattened,
) -> Result<OneLine, Refusal>
    requires budget { IsBudget budget }
    requires ready { IsReady ready.now }
    requires number { number < length ready.now.inputs.design.cells }
    requires place { place < length ready.now.inputs.rules.phases }
    requires some { 0 < length names.now }
    requires made { (m : ℕ) × IsFlattened ready.now.inputs.design ready.now.inputs.blif ready.now.inputs.rules number m made.now }
    requires equal { IsPhaseEqual (comparison ready.now.inputs.design ready.now.inputs.rules number made.now) place }
    ensures ok { IfOk result (λ t. HasArrivalLine (comparison ready.now.inputs.design ready.now.inputs.rules number made.now) ready.now.inputs.blif budget place names.now t.count t.line) }
    ensures err { IfErr result (Tells (IsNoRising (comparison ready.now.inputs.design ready.now.inputs.rules number made.now) names.now)) }
{
    match arrival_told(
        alloc,
        budget,
        &ready.prepared.index,
        &ready.inputs.design,
        &ready.inputs.rules,
        number,
        made,
        place,
        names,
    ) {
        Ok(told) => Ok(one_line(told)),
        Err(fault) => Err(at_refusal(alloc, &fault)),
    }
}

/// The line of a verdict.
pub fn verdict_told(
    alloc: Global,
    ready: &Ready,
    number: u32,
    judged: &Judged,
) -> Result<OneLine, NoMemory>
    requires number { number < length ready.now.inputs.design.cells }
    requires line { HasLine ready.now.inputs.design ready.now.inputs.blif ready.now.inputs.rules number judged.now.verdict judged.now.flattened }
    ensures { IfOk result (λ t. (t.count ≡ counted judged.now.verdict) × (t.line ≡ cell_line ready.now.inputs.design ready.now.inputs.blif ready.now.inputs.rules number judged.now.verdict)) }
{
    let cell = cell_of(&ready.inputs.design, number);
    let line = line_of(
        alloc,
        cell,
        &ready.inputs.rules,
        &judged.verdict,
        &judged.flattened,
    )?;
    Ok(OneLine {
        count: counted(&judged.verdict),
        line,
    })
}

/// Whether a verdict is that the cell is equal.
pub fn is_equal(verdict: &Verdict) -> bool
    ensures { result ≡ is_equal_verdict verdict.now }
{
    match verdict {
        Verdict::Equal => true,
        Verdict::Skipped => false,
        Verdict::Fault(_) => false,
        Verdict::Vacuous { .. } => false,
        Verdict::Budget { .. } => false,
        Verdict::Unsupported(_) => false,
    }
}

/// The line of the answer on a cell that was found equal, or the refusal of a name.
fn equal_told(
    alloc: Global,
    budget: u32,
    ready: &Ready,
    number: u32,
    place: u32,
    names: &Seq<Text>,
    judged: &Judged,
) -> Result<OneLine, Refusal>
    requires budget { IsBudget budget }
    requires ready { IsReady ready.now }
    requires number { number < length ready.now.inputs.design.cells }
    requires place { place < length ready.now.inputs.rules.phases }
    requires some { 0 < length names.now }
    requires found { IsFound ready.now.inputs.design ready.now.inputs.blif ready.now.inputs.rules budget ready.now.cells number judged.now }
    requires equal { true ≡ is_equal_verdict judged.now.verdict }
    ensures ok { IfOk result (λ t. IsEqualWith ready.now.inputs.design ready.now.inputs.blif ready.now.inputs.rules (λ k. HasArrivalLine k ready.now.inputs.blif budget place names.now t.count t.line) number judged.now.verdict) }
    ensures err { IfErr result (Tells (λ line. IsEqualWith ready.now.inputs.design ready.now.inputs.blif ready.now.inputs.rules (λ k. IsNoRising k names.now line) number judged.now.verdict)) }
{
    match &judged.flattened {
        Some(made) => told_order(alloc, budget, ready, number, place, names, made),
        // an equal cell was flattened
        None => Err(Refusal::NoMemory),
    }
}

/// The line of the answer on a cell that was compared, or of its verdict where it is not equal; or the refusal of a name.
fn found_order(
    alloc: Global,
    budget: u32,
    ready: &Ready,
    number: u32,
    place: u32,
    names: &Seq<Text>,
    judged: &Judged,
) -> Result<OneLine, Refusal>
    requires budget { IsBudget budget }
    requires ready { IsReady ready.now }
    requires number { number < length ready.now.inputs.design.cells }
    requires place { place < length ready.now.inputs.rules.phases }
    requires some { 0 < length names.now }
    requires found { IsFound ready.now.inputs.design ready.now.inputs.blif ready.now.inputs.rules budget ready.now.cells number judged.now }
    ensures ok { IfOk result (λ t. IsArrivalOf ready.now.inputs.design ready.now.inputs.blif ready.now.inputs.rules budget place names.now t.count t.line number judged.now.verdict) }
    ensures err { IfErr result (Tells (λ line. IsEqualWith ready.now.inputs.design ready.now.inputs.blif ready.now.inputs.rules (λ k. IsNoRising k names.now line) number judged.now.verdict)) }
{
    if is_equal(&judged.verdict) {
        return equal_told(alloc, budget, ready, number, place, names, judged);
    }
    match verdict_told(alloc, ready, number, judged) {
        Ok(told) => Ok(told),
        Err(_) => Err(Refusal::NoMemory),
    }
}

/// Whether the order matters in which the listed ports rise: the line of the answer, or of the cell's verdict where it is not equal; or the
/// refusal of the phase, of the list, or of a name in it. The cell is compared, and those below it before.
pub fn arrival_for(
    alloc: Global,
    budget: u32,
    ready: &Ready,
    cell: &str,
    phase: &str,
    rise: &str,
) -> Result<OneLine, Refusal>
    requires budget { IsBudget budget }
    requires ready { IsReady ready.now }
    requires asked { AreAsked ready.now.inputs.design (Some cell.now) ready.now.cells }
    ensures ok { IfOk result (λ t. IsArrival ready.now.inputs.design ready.now.inputs.blif ready.now.inputs.rules budget cell.now phase.now rise.now t.count t.line) }
    ensures err { IfErr result (Tells (OfArrival ready.now.inputs.design ready.now.inputs.blif ready.now.inputs.rules budget cell.now phase.now rise.now)) }
{
    let place = phase_number(alloc, &ready.inputs.rules, phase)?;
    let names = names_of(alloc, rise)?;
    let number = cell_number(alloc, ready, cell)?;
    match judged(alloc, budget, ready, number) {
        Ok(Some(found)) => found_order(alloc, budget, ready, number, place, &names, &found),
        // it is among the cells that are asked for
        Ok(None) => Err(Refusal::NoMemory),
        Err(_) => Err(Refusal::NoMemory),
    }
}
