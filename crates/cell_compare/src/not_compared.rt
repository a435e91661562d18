//! What hinders a cell, before anything is compared.

ghost use Rattle.std.specs.Prelude.{◌≡◌, ◌<◌, length, IfOk};
ghost use Rattle.cell_compare.specs.Cells.{HasEarlyLine, IsEarly, IsFlattenedTo};
ghost use Rattle.cell_compare.specs.Stops.{PlannedOrStops};
ghost use Rattle.cell_room.specs.Compared.{AreInputs};
ghost use Rattle.prepared_tables.specs.Prepared.{ArePrepared};
ghost use Rattle.vrt_model.specs.Hierarchy.{IsOrdered};
ghost use Rattle.vrt_model.specs.Inputs.{AreRules, IsBlif, IsDesign};
ghost use Rattle.vrt_model.specs.Models.{AreModels};
ghost use Rattle.vrt_model.specs.PairedPorts.{Model, model_of_paired, paired_model};

use cell_room::{Flattened, NotPlanned, Planned, plan_cell};
use prepared_tables::{Prepared, is_skipped_with, model_of_with, prepare};
use std::alloc::Global;
use vrt_model::{Blif, Design, NoMemory, Rules, Verdict, Why};

/// Why a cell is not compared.
#[derive(Drop)]
pub(crate) enum Stop {
    /// The rules say so.
    Skipped,
    /// It cannot be checked; with what was flattened where neither circuit nor model has anything in its way.
    Unsupported(Why, Option<Flattened>),
    /// Memory could not be had.
    NoMemory,
}

/// The verdict on a cell that is not compared, and what was made of the cell.
#[derive(Drop)]
pub struct EarlyCell {
    /// `Skipped` or `Unsupported`; none for a cell that is compared.
    pub verdict: Option<Verdict>,
    /// The flat circuit and the flat model; none for `Skipped` and where something stands in the way of either, which is neither
    /// a cycle nor a count of variables.
    pub flattened: Option<Flattened>,
}

/// The number of the model with which a cell pairs.
fn paired_number(
    prepared: &Prepared,
    design: &Design,
    blif: &Blif,
    rules: &Rules,
    cell: u32,
) -> Option<u32>
    requires { ArePrepared design.now blif.now rules.now prepared.now }
    ensures { result ≡ model_of_paired (paired_model design.now blif.now rules.now cell) }
{
    // the names of the models are in the tables
    let _unread = blif;
    model_of_with(prepared, design, rules, cell)
}

/// A cell that pairs with this model, flattened, with the variables and the plans of its phases; or why it is not compared.
fn planned_with(
    alloc: Global,
    prepared: &Prepared,
    design: &Design,
    blif: &Blif,
    rules: &Rules,
    cell: u32,
    model: u32,
) -> Result<Planned, Stop>
    requires prepared { ArePrepared design.now blif.now rules.now prepared.now }
    requires inputs { AreInputs design.now blif.now rules.now cell }
    requires paired { paired_model design.now blif.now rules.now cell ≡ Model model }
    ensures { PlannedOrStops design.now blif.now rules.now cell result }
{
    match plan_cell(alloc, prepared, design, blif, rules, cell, model) {
        Ok(planned) => Ok(planned),
        Err(NotPlanned::Because(why, flattened)) => Err(Stop::Unsupported(why, flattened)),
        Err(NotPlanned::NoMemory) => Err(Stop::NoMemory),
    }
}

/// A cell that is compared, flattened, with the variables and the plans of its phases; or why it is not compared.
pub(crate) fn planned_cell(
    alloc: Global,
    prepared: &Prepared,
    design: &Design,
    blif: &Blif,
    rules: &Rules,
    cell: u32,
) -> Result<Planned, Stop>
    requires prepared { ArePrepared design.now blif.now rules.now prepared.now }
    requires inputs { AreInputs design.now blif.now rules.now cell }
    ensures { PlannedOrStops design.now blif.now rules.now cell result }
{
    if is_skipped_with(prepared, design, rules, cell) {
        return Err(Stop::Skipped);
    }
    match paired_number(prepared, design, blif, rules, cell) {
        Some(model) => planned_with(alloc, prepared, design, blif, rules, cell, model),
        None => Err(Stop::Unsupported(Why::NoModel, None)),
    }
}

/// What hinders a cell by the tables that `prepare` makes: the same as `early`, in a time that does not grow with the numbers
/// of cells and models, with what was made of the cell.
pub fn early_prepared(
    alloc: Global,
    prepared: &Prepared,
    design: &Design,
    blif: &Blif,
    rules: &Rules,
    cell: u32,
) -> Result<EarlyCell, NoMemory>
    requires prepared { ArePrepared design.now blif.now rules.now prepared.now }
    requires inputs { AreInputs design.now blif.now rules.now cell }
    ensures early { IfOk result (λ e. IsEarly design.now blif.now rules.now cell e.verdict) }
    ensures line { IfOk result (λ e. HasEarlyLine design.now blif.now rules.now cell e.verdict e.flattened) }
    ensures flattened { IfOk result (λ e. IsFlattenedTo design.now blif.now rules.now cell e.verdict e.flattened) }
{
    match planned_cell(alloc, prepared, design, blif, rules, cell) {
        Ok(planned) => Ok(EarlyCell {
            verdict: None,
            flattened: Some(planned.into_flattened()),
        }),
        Err(Stop::Skipped) => Ok(EarlyCell {
            verdict: Some(Verdict::Skipped),
            flattened: None,
        }),
        Err(Stop::Unsupported(why, flattened)) => Ok(EarlyCell {
            verdict: Some(Verdict::Unsupported(why)),
            flattened,
        }),
        Err(Stop::NoMemory) => Err(NoMemory),
    }
}

/// The verdict of a cell that is skipped or cannot be checked, exactly where it is so; none of another. Nothing is compared.
pub fn early(
    alloc: Global,
    design: &Design,
    blif: &Blif,
    rules: &Rules,
    cell: u32,
) -> Result<Option<Verdict>, NoMemory>
    requires design { IsDesign design.now }
    requires blif { IsBlif blif.now }
    requires models { AreModels blif.now }
    requires rules { AreRules rules.now }
    requires cell { cell < length design.now.cells }
    requires ordered { IsOrdered design.now rules.now }
    ensures { IfOk result (IsEarly design.now blif.now rules.now cell) }
{
    let prepared = prepare(alloc, design, blif, rules)?;
    let found = early_prepared(alloc, &prepared, design, blif, rules, cell)?;
    let EarlyCell {
        verdict,
        flattened: _flattened,
    } = found;
    Ok(verdict)
}
