//! A cell written as a BLIF model.

ghost use Rattle.std.specs.Prelude.{◌≡◌, ◌<◌, ◌∷◌, [], ℕ, Some, IfOk, length, true};
ghost use Rattle.verity_run.specs.Arrivals.{IsFound, IsJudgedAs, is_equal_verdict};
ghost use Rattle.verity_run.specs.Asked.{AreAsked};
ghost use Rattle.verity_run.specs.Classes.{IsBudget};
ghost use Rattle.verity_run.specs.Ready.{IsReady};
ghost use Rattle.verity_run.specs.Writes.{IsBlifOf, IsWritten, counted_written};

use crate::arrivals::{OneLine, is_equal, judged, verdict_told};
use crate::cell_lines::CellLines;
use crate::ready::Ready;
use crate::replays::cell_number;
use crate::report::Judged;
use crate::status::Count;
use std::alloc::Global;
use vrt_model::{NoMemory, Seq};
use written_lines::{WrittenLines, written_lines};

/// What is told counts for: a model for nothing, a refusal as a cell that was not decided.
fn counted_written(written: bool) -> Count
    ensures { result ≡ counted_written written }
{
    if written {
        Count::Nothing
    } else {
        Count::Pending
    }
}

/// The lines of what is told, with what they count for.
fn lines_of(told: WrittenLines) -> CellLines
    ensures { (result.count ≡ counted_written told.written) × (result.lines ≡ told.lines) }
{
    let count = counted_written(told.written);
    CellLines {
        count,
        lines: told.into_lines(),
    }
}

/// One line.
fn single(alloc: Global, told: OneLine) -> Result<CellLines, NoMemory>
    ensures { IfOk result (λ found. (found.count ≡ told.count) × (found.lines ≡ told.line ∷ [])) }
{
    let count = told.count;
    let mut lines = Seq::new(alloc);
    lines.append(told.into_line())?;
    Ok(CellLines { count, lines })
}

/// The lines of a cell that was found equal.
fn equal_lines(
    alloc: Global,
    budget: u32,
    ready: &Ready,
    number: u32,
    judged: &Judged,
) -> Result<CellLines, NoMemory>
    requires budget { IsBudget budget }
    requires ready { IsReady ready.now }
    requires number { number < length ready.now.inputs.design.cells }
    requires found { IsFound ready.now.inputs.design ready.now.inputs.blif ready.now.inputs.rules budget ready.now.cells number judged.now }
    requires equal { true ≡ is_equal_verdict judged.now.verdict }
    ensures { IfOk result (λ f. IsWritten ready.now.inputs.design ready.now.inputs.blif ready.now.inputs.rules budget number f.count f.lines) }
{
    // that it is equal is known of what was judged
    let _judged = judged;
    let told = written_lines(
        alloc,
        budget,
        &ready.prepared,
        &ready.inputs.design,
        &ready.inputs.blif,
        &ready.inputs.rules,
        number,
    )?;
    Ok(lines_of(told))
}

/// The lines of a cell that was compared.
fn found_lines(
    alloc: Global,
    budget: u32,
    ready: &Ready,
    number: u32,
    judged: &Judged,
) -> Result<CellLines, NoMemory>
    requires budget { IsBudget budget }
    requires ready { IsReady ready.now }
    requires number { number < length ready.now.inputs.design.cells }
    requires found { IsFound ready.now.inputs.design ready.now.inputs.blif ready.now.inputs.rules budget ready.now.cells number judged.now }
    ensures { IfOk result (λ f. IsBlifOf ready.now.inputs.design ready.now.inputs.blif ready.now.inputs.rules budget f.count f.lines number judged.now.verdict) }
{
    if is_equal(&judged.verdict) {
        return equal_lines(alloc, budget, ready, number, judged);
    }
    let told = verdict_told(alloc, ready, number, judged)?;
    single(alloc, told)
}

/// The lines of a cell as a BLIF model, or the one line of what refuses it, or of the cell's verdict where it is not equal. The cell is compared, and
/// those below it before.
pub fn blif_for(
    alloc: Global,
    budget: u32,
    ready: &Ready,
    cell: &str,
) -> Result<CellLines, NoMemory>
    requires budget { IsBudget budget }
    requires ready { IsReady ready.now }
    requires asked { AreAsked ready.now.inputs.design (Some cell.now) ready.now.cells }
    ensures { IfOk result (λ f. IsJudgedAs ready.now.inputs.design ready.now.inputs.blif ready.now.inputs.rules budget cell.now (IsBlifOf ready.now.inputs.design ready.now.inputs.blif ready.now.inputs.rules budget f.count f.lines)) }
{
    let number = cell_number(alloc, ready, cell)?;
    match judged(alloc, budget, ready, number) {
        Ok(Some(found)) => found_lines(alloc, budget, ready, number, &found),
        // it is among the cells that are asked for
        Ok(None) => Err(NoMemory),
        Err(_) => Err(NoMemory),
    }
}
