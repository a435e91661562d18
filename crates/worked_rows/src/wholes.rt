//! The checked circuit of the second cell of a netlist, by what is known of the first.

ghost use Rattle.std.specs.Prelude.{◌<◌, ◌≤◌, IfOk, IsTrue, OnOk, length};
ghost use Rattle.cell_compare.specs.Cells.{HasFacts};
ghost use Rattle.checked_cells.specs.Given.{AreTrueFacts};
ghost use Rattle.vrt_model.specs.Inputs.{AreRules, IsBlif, IsDesign};
ghost use Rattle.whole_cells.specs.Own.{AreFiles};

use crate::row::Row;
use blif_flat::check_models;
use blif_reader::read_blif;
use cell_compare::{Compared, compare};
use hierarchy::order;
use row_script::Page;
use rules_reader::read_rules;
use spice_reader::read_spice;
use std::alloc::Global;
use substitute::whole;
use vrt_model::{Blif, CellFacts, Circuit, Design, Rules, Seq};

/// The budget of nodes with which the cells are compared.
const BUDGET: u32 = 65536;

/// A text is refused, the cell is not there or is not compared, or memory was wanting.
#[derive(Drop)]
pub(crate) struct NoCircuit;

/// What the three texts say.
pub(crate) struct Inputs {
    /// The netlist.
    pub(crate) design: Design,
    /// The models.
    pub(crate) blif: Blif,
    /// The rules.
    pub(crate) rules: Rules,
}

/// By hand, so that letting go of one is a call.
impl Drop for Inputs {
    fn drop(self) {
        let Inputs {
            design: _design,
            blif: _blif,
            rules: _rules,
        } = self;
    }
}

/// Whether a text is no longer than a file may be.
fn fits(text: &[u8]) -> bool
    ensures { IsTrue result → length text.now ≤ 16777216 }
{
    text.len() <= 16777216
}

/// The netlist, the models and the rules of a row.
fn read(alloc: Global, row: Row<'_>) -> Result<Inputs, NoCircuit>
    requires netlist { length row.netlist.now ≤ 16777216 }
    requires models { length row.models.now ≤ 16777216 }
    requires rules { length row.rules.now ≤ 16777216 }
    ensures { IfOk result (λ i. IsDesign i.design × IsBlif i.blif × AreRules i.rules) }
{
    let Ok(design) = read_spice(alloc, row.netlist) else {
        return Err(NoCircuit);
    };
    let Ok(blif) = read_blif(alloc, row.models) else {
        return Err(NoCircuit);
    };
    let Ok(rules) = read_rules(alloc, row.rules) else {
        return Err(NoCircuit);
    };
    Ok(Inputs {
        design,
        blif,
        rules,
    })
}

/// Refuses models that cannot be unrolled, and cells without an order.
pub(crate) fn check(alloc: Global, inputs: &Inputs) -> Result<(), NoCircuit>
    requires design { IsDesign inputs.now.design }
    requires blif { IsBlif inputs.now.blif }
    requires rules { AreRules inputs.now.rules }
    ensures { OnOk result (AreFiles inputs.now.design inputs.now.blif inputs.now.rules) }
{
    let Ok(()) = check_models(alloc, &inputs.blif) else {
        return Err(NoCircuit);
    };
    let Ok(_order) = order(alloc, &inputs.design, &inputs.rules) else {
        return Err(NoCircuit);
    };
    Ok(())
}

/// A cell compared with its model, by what is known of cells before.
pub(crate) fn compared(
    alloc: Global,
    inputs: &Inputs,
    cell: u32,
    facts: &Seq<CellFacts>,
) -> Result<Compared, NoCircuit>
    requires files { AreFiles inputs.now.design inputs.now.blif inputs.now.rules }
    requires there { cell < length inputs.now.design.cells }
    requires facts { AreTrueFacts inputs.now.design inputs.now.blif inputs.now.rules facts.now }
    ensures { IfOk result (λ c. HasFacts inputs.now.design inputs.now.blif inputs.now.rules facts.now cell c.verdict c.facts) }
{
    match compare(
        alloc,
        BUDGET,
        &inputs.design,
        &inputs.blif,
        &inputs.rules,
        cell,
        facts,
    ) {
        Ok(compared) => Ok(compared),
        Err(_) => Err(NoCircuit),
    }
}

/// What is known of the first cell.
pub(crate) fn known(alloc: Global, inputs: &Inputs) -> Result<Seq<CellFacts>, NoCircuit>
    requires files { AreFiles inputs.now.design inputs.now.blif inputs.now.rules }
    requires there { 0 < length inputs.now.design.cells }
    ensures { IfOk result (AreTrueFacts inputs.now.design inputs.now.blif inputs.now.rules) }
{
    let mut facts = Seq::new(alloc);
    let Compared {
        verdict: _verdict,
        facts: own,
        flattened: _flattened,
    } = compared(alloc, inputs, 0, &facts)?;
    match facts.append(own) {
        Ok(()) => Ok(facts),
        Err(_) => Err(NoCircuit),
    }
}

/// The checked circuit of the second cell.
fn circuit(alloc: Global, inputs: &Inputs) -> Result<Circuit, NoCircuit>
    requires files { AreFiles inputs.now.design inputs.now.blif inputs.now.rules }
    requires there { 1 < length inputs.now.design.cells }
{
    let facts = known(alloc, inputs)?;
    let second = compared(alloc, inputs, 1, &facts)?;
    let Some(flattened) = &second.flattened else {
        return Err(NoCircuit);
    };
    match whole(
        alloc,
        &inputs.design,
        &inputs.blif,
        &inputs.rules,
        1,
        flattened.pairing(),
        &facts,
    ) {
        Ok(circuit) => Ok(circuit),
        Err(_) => Err(NoCircuit),
    }
}

/// The netlist, the models and the rules of a row whose texts are no longer than files may be.
pub(crate) fn inputs_of(alloc: Global, row: Row<'_>) -> Result<Inputs, NoCircuit>
    ensures { IfOk result (λ i. IsDesign i.design × IsBlif i.blif × AreRules i.rules) }
{
    if !fits(row.netlist) {
        return Err(NoCircuit);
    }
    if !fits(row.models) {
        return Err(NoCircuit);
    }
    if !fits(row.rules) {
        return Err(NoCircuit);
    }
    read(alloc, row)
}

/// The checked circuit of the second cell of a row.
fn checked(alloc: Global, row: Row<'_>) -> Result<Circuit, NoCircuit> {
    let inputs = inputs_of(alloc, row)?;
    check(alloc, &inputs)?;
    if inputs.design.cells.len() < 2 {
        return Err(NoCircuit);
    }
    circuit(alloc, &inputs)
}

/// Tells how many instances are whole in the checked circuit of the second cell, how many are left, and how many devices.
pub(crate) fn tell(page: &mut Page, name: &str, row: Row<'_>) {
    page.word(name);
    match checked(page.alloc(), row) {
        Ok(circuit) => {
            page.word(" ");
            page.count(circuit.wholes.len(), " ");
            page.count(circuit.instances.len(), " ");
            page.count(circuit.devices.len(), "");
        }
        Err(_) => page.word(" no circuit"),
    }
    page.word("\n");
}
