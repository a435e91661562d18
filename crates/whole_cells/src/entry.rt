//! What the instances of a cell have in common, if they may be left whole.

ghost use Rattle.std.specs.Prelude.{◌≡◌, ◌&&◌, ◌<◌, [], length, map, true, IfOk};
ghost use Rattle.phase_ports.specs.Comparisons.{ArePortsWithin, IsOfCell};
ghost use Rattle.phase_ports.specs.Ports.{unnamed};
ghost use Rattle.prepared_tables.specs.Prepared.{ArePrepared};
ghost use Rattle.rule_index.specs.Tables.{AreRuleTables};
ghost use Rattle.whole_circuits.specs.WholeCells.{HasWholeCell};
ghost use Rattle.vrt_model.specs.Checked.{has_fact, keeps_inputs_free as keeps, names_no_global as names_none, observes_outputs as observes};
ghost use Rattle.vrt_model.specs.Circuits.{IsCircuit, IsFlat};
ghost use Rattle.vrt_model.specs.Comparison.{Comparison, cell_at, ports_of};
ghost use Rattle.vrt_model.specs.FlatBlif.{model_at};
ghost use Rattle.vrt_model.specs.FlatModels.{IsFlatModel};
ghost use Rattle.vrt_model.specs.Inputs.{AreRules};
ghost use Rattle.vrt_model.specs.Lists.{is_empty};
ghost use Rattle.vrt_model.specs.PairedPorts.{HasRoles, Model, paired_model};
ghost use Rattle.vrt_model.specs.Unsupported.{top_before};
ghost use Rattle.vrt_model.specs.declared.whole.CellFacts.{CellFacts as FactsValue};
ghost use Rattle.whole_cells.specs.Entries.{IsEntry, IsOfOwn};
ghost use Rattle.whole_cells.specs.Own.{AreFiles, AreItsPlaces};

use crate::known::{is_known, told_drives};
use crate::links::all_links;
use crate::own::{Own, cell_of, own_of};
use crate::seen::observes_outputs;
use phase_ports::{Port, observed_nets, ports_by};
use prepared_tables::{Prepared, model_of_with};
use rule_index::RuleIndex;
use std::alloc::Global;
use vrt_model::{Blif, CellFacts, Design, Drive, NoMemory, Rules, Seq};
use whole_circuits::{WholeCell, copy_items, keeps_inputs_free, names_no_global};

/// Both of two tests.
fn both(one: bool, other: bool) -> bool
    ensures { result ≡ (one && other) }
{
    one && other
}

/// Whether a cell passes the tests of its netlist: it names no global net, its outputs are observed in all phases, and no channel
/// meets its inputs.
fn passes(
    index: &RuleIndex,
    design: &Design,
    rules: &Rules,
    cell: u32,
    own: &Own,
    ports: &[Port],
) -> bool
    requires valid { AreRules rules.now }
    requires there { cell < length design.now.cells }
    requires index { AreRuleTables rules.now index.now }
    requires places { AreItsPlaces design.now rules.now cell own.now.unrolled }
    ensures { (k : Comparison) → IsOfOwn design.now rules.now cell own.now.circuit k → ports.now ≡ map unnamed (ports_of k) → result ≡ (names_none (top_before design.now rules.now cell) cell && (observes k && keeps k)) }
{
    let none = names_no_global(design, &own.unrolled);
    let seen = observes_outputs(index, rules, cell_of(design, cell), ports);
    let free = keeps_inputs_free(&own.circuit, ports);
    let inside = both(seen, free);
    both(none, inside)
}

/// What the instances of a flattened cell have in common.
fn common(
    alloc: Global,
    index: &RuleIndex,
    design: &Design,
    rules: &Rules,
    cell: u32,
    own: Own,
    ports: Vec<Port>,
    drives: Seq<Drive>,
) -> Result<WholeCell, NoMemory>
    requires valid { AreRules rules.now }
    requires there { cell < length design.now.cells }
    requires index { AreRuleTables rules.now index.now }
    requires roles { HasRoles rules.now (cell_at design.now cell) own.pairing }
    requires circuit { IsCircuit own.circuit }
    requires flat { IsFlat own.circuit }
    requires within { ArePortsWithin rules.now (cell_at design.now cell) own.circuit }
    requires model { IsFlatModel own.model }
    ensures told { IfOk result (λ whole. whole.drives ≡ drives) }
    ensures has { IfOk result (λ whole. (k : Comparison) → IsOfCell design.now rules.now cell own.pairing k → k.circuit ≡ own.circuit → k.model ≡ own.model → ports.items ≡ map unnamed (ports_of k) → HasWholeCell k whole) }
{
    let circuit = &own.circuit;
    let roles = &own.pairing;
    let observed = observed_nets(alloc, index, design, rules, cell, circuit, roles, 0)?;
    let links = all_links(alloc, index, design, rules, cell, &own)?;
    let clocked = copy_items(alloc, own.pairing.clocked.as_slice())?;
    let model = own.into_model();
    Ok(WholeCell {
        model,
        clocked,
        ports,
        observed,
        drives,
        links,
    })
}

/// Whether a model has no don't-care network.
#[tactic(auto, using(whole_circuits::proofs::LevelLaws::none_there))]
fn has_no_network(blif: &Blif, model: u32) -> bool
    ensures { result ≡ is_empty (model_at blif.now model).exdc }
{
    match blif.models.get(model as usize) {
        Some(found) => found.exdc.is_empty(),
        None => true,
    }
}

/// What the instances of a cell that pairs with a model without a don't-care network have in common, if it passes the tests of its netlist.
fn cell_with(
    alloc: Global,
    prepared: &Prepared,
    design: &Design,
    blif: &Blif,
    rules: &Rules,
    facts: &[CellFacts],
    cell: u32,
    model: u32,
) -> Result<Option<WholeCell>, NoMemory>
    requires prepared { ArePrepared design.now blif.now rules.now prepared.now }
    requires files { AreFiles design.now blif.now rules.now }
    requires there { cell < length design.now.cells }
    requires paired { paired_model design.now blif.now rules.now cell ≡ Model model }
    requires cared { (model_at blif.now model).exdc ≡ [] }
    ensures { IfOk result (λ entry. has_fact (λ (f : FactsValue). f.equal && f.stateless) facts.now cell ≡ true → IsEntry (top_before design.now rules.now cell) blif.now facts.now cell entry) }
{
    let index = &prepared.index;
    let own = own_of(alloc, prepared, design, blif, rules, cell, model)?;
    let ports = ports_by(alloc, own.pairing.ports.as_slice())?;
    let list = ports.as_slice();
    let free = passes(index, design, rules, cell, &own, list);
    if !free {
        return Ok(None);
    }
    let drives = told_drives(alloc, facts, cell as usize)?;
    let whole = common(alloc, index, design, rules, cell, own, ports, drives)?;
    Ok(Some(whole))
}

/// What the instances of a cell have in common, if they may be left whole: the cell is told to be equal and without holds and
/// latches, its model has no don't-care network, it names no global net, its outputs are observed in all phases, and no channel meets its
/// inputs. A cell that is told so is flattened once, and its links take one search for each output and phase.
pub fn whole_cell(
    alloc: Global,
    prepared: &Prepared,
    design: &Design,
    blif: &Blif,
    rules: &Rules,
    facts: &[CellFacts],
    cell: u32,
) -> Result<Option<WholeCell>, NoMemory>
    requires prepared { ArePrepared design.now blif.now rules.now prepared.now }
    requires files { AreFiles design.now blif.now rules.now }
    requires there { cell < length design.now.cells }
    ensures { IfOk result (IsEntry (top_before design.now rules.now cell) blif.now facts.now cell) }
{
    if !is_known(facts, cell as usize) {
        return Ok(None);
    }
    match model_of_with(prepared, design, rules, cell) {
        Some(model) => {
            let cared = has_no_network(blif, model);
            if !cared {
                return Ok(None);
            }
            cell_with(alloc, prepared, design, blif, rules, facts, cell, model)
        }
        None => Ok(None),
    }
}
