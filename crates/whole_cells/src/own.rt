//! A cell with its model, flattened.

ghost use Rattle.std.specs.Prelude.{◌≡◌, ◌<◌, length, IfOk};
ghost use Rattle.blif_flat.specs.Counts.{AreModelTables};
ghost use Rattle.flatten.specs.Structures.{IsStructured};
ghost use Rattle.latch_match.specs.Paired.{IsPairing};
ghost use Rattle.net_tables.specs.Tables.{AreNetTables};
ghost use Rattle.prepared_tables.specs.Prepared.{ArePrepared};
ghost use Rattle.rule_index.specs.Tables.{AreIndexed, AreRuleTables};
ghost use Rattle.vrt_model.specs.Comparison.{cell_at};
ghost use Rattle.vrt_model.specs.FlatBlif.{flat_model_of};
ghost use Rattle.vrt_model.specs.FlatModels.{IsFlatModel};
ghost use Rattle.vrt_model.specs.Inputs.{AreRules, IsBlif, IsDesign};
ghost use Rattle.vrt_model.specs.Models.{AreModels};
ghost use Rattle.vrt_model.specs.Unsupported.{top_before};
ghost use Rattle.whole_cells.specs.Own.{AreFiles, AreItsPlaces, IsOwn};

use blif_flat::{ModelTables, flat_model_with};
use flatten::{structure_with, unroll_cell, unrolled_circuit};
use latch_match::pair_ports_with;
use net_places::Unrolled;
use net_tables::NetTables;
use prepared_tables::Prepared;
use rule_index::RuleIndex;
use std::alloc::Global;
use vrt_model::{Blif, Cell, Circuit, Design, FlatModel, NoMemory, Pairing, Rules};

/// The places, the flat circuit and the flat model of a cell, and how its ports pair.
pub struct Own {
    /// How the ports of the cell pair with the signals of the model.
    pub pairing: Pairing,
    /// The places of the cell and its instances.
    pub unrolled: Unrolled,
    /// The flat circuit of the cell.
    pub circuit: Circuit,
    /// The flat model of the cell.
    pub model: FlatModel,
}

/// By hand, so that letting go of one is a call.
impl Drop for Own {
    fn drop(self) {
        let Own {
            pairing: _pairing,
            unrolled: _unrolled,
            circuit: _circuit,
            model: _model,
        } = self;
    }
}

impl Own {
    /// The flat model, of which nothing else is kept.
    pub(crate) fn into_model(self) -> FlatModel
        ensures { result ≡ self.model }
    {
        let Own {
            pairing: _pairing,
            unrolled: _unrolled,
            circuit: _circuit,
            model,
        } = self;
        model
    }
}

/// A cell by its number.
pub(crate) fn cell_of(design: &Design, cell: u32) -> &Cell
    requires { cell < length design.now.cells }
    ensures { result.now ≡ cell_at design.entry.now cell }
{
    &design.cells.as_slice()[cell as usize]
}

/// The flat model of a number.
fn model_of(
    alloc: Global,
    tables: &ModelTables,
    blif: &Blif,
    model: u32,
) -> Result<FlatModel, NoMemory>
    requires tables { AreModelTables blif.now tables.now }
    requires blif { IsBlif blif.now }
    requires models { AreModels blif.now }
    ensures is { IfOk result (λ flat. flat ≡ flat_model_of blif.now model) }
    ensures formed { IfOk result IsFlatModel }
{
    match flat_model_with(alloc, tables, blif, model) {
        Ok(flat) => Ok(flat),
        Err(_) => Err(NoMemory),
    }
}

/// How the ports of a cell pair with the signals of a model.
fn pairing_of(
    alloc: Global,
    index: &RuleIndex,
    design: &Design,
    rules: &Rules,
    cell: u32,
    model: u32,
    flat: &FlatModel,
) -> Result<Pairing, NoMemory>
    requires index { AreRuleTables rules.now index.now }
    requires valid { AreRules rules.now }
    requires there { cell < length design.now.cells }
    ensures { IfOk result (IsPairing design.now cell model flat.now rules.now) }
{
    let own = cell_of(design, cell);
    match pair_ports_with(alloc, index, own, model, flat, rules) {
        Ok(pairing) => Ok(pairing),
        Err(_) => Err(NoMemory),
    }
}

/// The places of a cell in whose way nothing stands.
fn unrolled_of(
    alloc: Global,
    index: &RuleIndex,
    tables: &NetTables,
    design: &Design,
    rules: &Rules,
    cell: u32,
) -> Result<Unrolled, NoMemory>
    requires netlist { IsDesign design.now }
    requires index { AreIndexed design.now rules.now index.now }
    requires tables { AreNetTables design.now rules.now tables.now }
    requires there { cell < length design.now.cells }
    ensures structured { IfOk result (λ _. IsStructured (top_before design.now rules.now cell)) }
    ensures unrolled { IfOk result (AreItsPlaces design.now rules.now cell) }
{
    match structure_with(alloc, index, design, rules, cell) {
        Ok(()) => unroll_cell(alloc, tables, design, rules, cell),
        Err(_) => Err(NoMemory),
    }
}

/// A cell and a model flattened, with their pairing: for a cell with this model in whose way nothing stands, as of each that was
/// found equal.
pub fn own_of(
    alloc: Global,
    prepared: &Prepared,
    design: &Design,
    blif: &Blif,
    rules: &Rules,
    cell: u32,
    model: u32,
) -> Result<Own, NoMemory>
    requires prepared { ArePrepared design.now blif.now rules.now prepared.now }
    requires files { AreFiles design.now blif.now rules.now }
    requires there { cell < length design.now.cells }
    ensures { IfOk result (IsOwn design.now blif.now rules.now cell model) }
{
    let index = &prepared.index;
    let nets = &prepared.nets;
    let flat = model_of(alloc, &prepared.models, blif, model)?;
    let pairing = pairing_of(alloc, index, design, rules, cell, model, &flat)?;
    let unrolled = unrolled_of(alloc, index, nets, design, rules, cell)?;
    let circuit = unrolled_circuit(alloc, index, nets, design, rules, &unrolled, cell, &pairing)?;
    Ok(Own {
        pairing,
        unrolled,
        circuit,
        model: flat,
    })
}
