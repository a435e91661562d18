//! A cell of a netlist written.

ghost use Rattle.std.specs.Prelude.{◌≤◌, ◌<◌, ℕ, IfOk, length};
ghost use Rattle.cell_room.specs.Compared.{AreInputs};
ghost use Rattle.cell_writer.specs.Standing.{StandsAlone};
ghost use Rattle.cell_writer.specs.Written.{WriteGives};
ghost use Rattle.prepared_tables.specs.Prepared.{ArePrepared};
ghost use Rattle.vrt_model.specs.Equal.{IsEqual};
ghost use Rattle.vrt_model.specs.FlatBlif.{model_at};
ghost use Rattle.vrt_model.specs.Hierarchy.{IsOrdered};
ghost use Rattle.vrt_model.specs.Inputs.{AreRules, IsBlif, IsDesign};
ghost use Rattle.vrt_model.specs.Models.{AreModels};
ghost use Rattle.vrt_model.specs.Unsupported.{IsSupported, comparison_of};

use crate::planned::write_planned;
use crate::refusal::WriteRefusal;
use crate::writing::Writing;
use cell_room::plan_cell;
use prepared_tables::{Prepared, model_of_with, prepare};
use std::alloc::Global;
use vrt_model::{Blif, Design, Rules, Text};

/// The same as `write_model`, from the tables of the files, which are made once for all cells.
pub fn write_model_with(
    alloc: Global,
    budget: u32,
    prepared: &Prepared,
    design: &Design,
    blif: &Blif,
    rules: &Rules,
    cell: u32,
) -> Result<Text, WriteRefusal>
    requires budget { (65536 ≤ budget) × (budget ≤ 64000000) }
    requires prepared { ArePrepared design.now blif.now rules.now prepared.now }
    requires inputs { AreInputs design.now blif.now rules.now cell }
    requires equal { (m : ℕ) × IsSupported design.now blif.now rules.now cell m × IsEqual (comparison_of design.now blif.now rules.now cell m) }
    ensures gives { (m : ℕ) → IsSupported design.now blif.now rules.now cell m → WriteGives (comparison_of design.now blif.now rules.now cell m) blif.now (model_at blif.now m) budget result }
    ensures stands { IfOk result (StandsAlone design.now rules.now cell) }
{
    let Some(number) = model_of_with(prepared, design, rules, cell) else {
        return Err(WriteRefusal::NoMemory);
    };
    let Some(model) = blif.models.get(number as usize) else {
        return Err(WriteRefusal::NoMemory);
    };
    let Ok(planned) = plan_cell(alloc, prepared, design, blif, rules, cell, number) else {
        return Err(WriteRefusal::NoMemory);
    };
    let writing = Writing {
        design,
        blif,
        rules,
        cell,
        index: &prepared.index,
        model,
        planned: &planned,
    };
    write_planned(alloc, budget, writing)
}

/// A BLIF model of what the transistors of a cell do where the constraints are met. The cell is equal to its model, and nothing stands in its way.
///
/// The text has the names of the cell's model, and a node for each subfunction of its outputs by the first inputs, in port order: an output is 1 at
/// exactly the valuations at which some phase that observes it has its constraints met and gives it 1. It is read without a fault, as one model that can
/// be unrolled; with it in the place of all models nothing stands in the way of the cell, and the cell is equal to it. Outside the constraints
/// the outputs are 0; of the cells below it says nothing.
///
/// Each refusal but want of memory comes exactly by its cause, and the first of them in their order; that the budget is used up only where more nodes may be
/// needed, and never with at most four inputs.
pub fn write_model(
    alloc: Global,
    budget: u32,
    design: &Design,
    blif: &Blif,
    rules: &Rules,
    cell: u32,
) -> Result<Text, WriteRefusal>
    requires budget { (65536 ≤ budget) × (budget ≤ 64000000) }
    requires design { IsDesign design.now }
    requires blif { IsBlif blif.now }
    requires models { AreModels blif.now }
    requires rules { AreRules rules.now }
    requires cell { cell < length design.now.cells }
    requires ordered { IsOrdered design.now rules.now }
    requires equal { (m : ℕ) × IsSupported design.now blif.now rules.now cell m × IsEqual (comparison_of design.now blif.now rules.now cell m) }
    ensures gives { (m : ℕ) → IsSupported design.now blif.now rules.now cell m → WriteGives (comparison_of design.now blif.now rules.now cell m) blif.now (model_at blif.now m) budget result }
    ensures stands { IfOk result (StandsAlone design.now rules.now cell) }
{
    match prepare(alloc, design, blif, rules) {
        Ok(prepared) => write_model_with(alloc, budget, &prepared, design, blif, rules, cell),
        Err(_) => Err(WriteRefusal::NoMemory),
    }
}
