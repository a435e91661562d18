//! Where the constraints of an instance hold, over the inputs of the circuit.

ghost use Rattle.vrt_model.specs.Hierarchy.{IsOrdered};
ghost use Rattle.vrt_model.specs.Inputs.{AreRules, IsDesign};

use crate::board::{Board, inputs};
use crate::checks::{are_below, are_live, is_live, is_tied};
use crate::drawing::number;
use crate::stop::Stop;
use crate::texts::Given;
use crate::values::add_bits;
use bdd_core::{H, ONE, Store};
use constraints::obligation;
use node_pool::Span;
use row_script::{Page, word_and_rest};
use vrt_model::{Design, FlatInstance, Rules};

/// The function that says where the constraints of an instance hold.
#[tactic(auto, using(crate::proofs::CellLaws::ports_apart, crate::proofs::CellLaws::lines_named))]
fn obliged(
    store: &mut Store,
    design: &Design,
    rules: &Rules,
    instance: &FlatInstance,
    phase: u32,
    values: Span,
) -> Result<H, Stop>
    requires netlist { IsDesign design.now }
    requires ruled { AreRules rules.now }
    requires ordered { IsOrdered design.now rules.now }
{
    if !is_live(store, values) || !are_below(instance.ports.as_slice(), values.len as usize) {
        return Err(Stop::Unfit);
    }
    if !are_live(store, values) || !is_tied(design, instance) {
        return Err(Stop::Unfit);
    }
    Ok(obligation(store, design, rules, instance, phase, values)?)
}

/// Tells where the constraints of an instance hold in a phase, by the numbers of both.
pub(crate) fn tell(page: &mut Page, given: Given<'_>, rest: &str) -> Result<(), Stop>
    requires netlist { IsDesign given.design.now }
    requires ruled { AreRules given.rules.now }
    requires ordered { IsOrdered given.design.now given.rules.now }
{
    let (word, at) = word_and_rest(rest);
    let (phase, at) = (number(word)?, number(at)?);
    let (design, rules, circuit) = (given.design, given.rules, given.circuit);
    let Some(instance) = circuit.instances.get(at as usize) else {
        return Err(Stop::NotRead);
    };
    let mut board = Board::open(page.alloc(), circuit.nets.len(), inputs(circuit))?;
    board.put_inputs(circuit)?;
    let values = board.values;
    let f = obliged(&mut board.store, design, rules, instance, phase, values)?;
    add_bits(page, &board.store, ONE, f)
}
