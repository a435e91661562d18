//! The cells that a request asks for, or what is in its way.

ghost use Rattle.std.specs.Prelude.{◌≡◌, ◌⊎◌, IfErr, IfOk, option_map};
ghost use Rattle.command_line.specs.Requests.{value_of};
ghost use Rattle.hierarchy.specs.Order.{IsHierFault};
ghost use Rattle.cells_below.specs.Below.{AreNumbered};
ghost use Rattle.verity_run.specs.Asked.{AreAsked, OfCellWord, cell_word};
ghost use Rattle.verity_run.specs.Given.{names_in};
ghost use Rattle.verity_run.specs.Refusals.{OfOrder, Tells};
ghost use Rattle.vrt_model.specs.Hierarchy.{IsOrdered, cell_order};
ghost use Rattle.vrt_model.specs.Inputs.{IsDesign};
ghost use Rattle.vrt_model.specs.declared.rules.Rules.{Rules as RulesValue};

use crate::messages;
use crate::refusals::{Inputs, Refusal, told};
use cells_below::cells_below;
use command_line::{FileWords, Request};
use hierarchy::{HierFault, order};
use rule_index::{RuleIndex, lowered_name};
use std::alloc::Global;
use vrt_model::{Design, Seq};

/// The refusal of cells that have no order.
fn order_refusal(
    alloc: Global,
    words: &FileWords<'_>,
    design: &Design,
    fault: &HierFault,
) -> Refusal
    ensures { (rules : RulesValue) → (fault.now ≡ HierFault.NoMemory) ⊎ IsHierFault design.now rules fault.now → Tells (OfOrder (names_in words.now) design.now rules) result }
{
    match fault {
        HierFault::NoMemory => Refusal::NoMemory,
        _ => told(messages::cells_refusal(alloc, words, design, fault)),
    }
}

/// All cells in their order, or the refusal of the first fault.
pub fn order_cells(
    alloc: Global,
    words: &FileWords<'_>,
    inputs: &Inputs,
) -> Result<Seq<u32>, Refusal>
    requires { IsDesign inputs.now.design }
    ensures ok { IfOk result (λ cells. IsOrdered inputs.now.design inputs.now.rules × (cells ≡ cell_order inputs.now.design)) }
    ensures err { IfErr result (Tells (OfOrder (names_in words.now) inputs.now.design inputs.now.rules)) }
{
    match order(alloc, &inputs.design, &inputs.rules) {
        Ok(cells) => Ok(cells),
        Err(fault) => Err(order_refusal(alloc, words, &inputs.design, &fault)),
    }
}

/// The cell of a name and those below it, in the order of all, or the refusal of a name that is not there.
fn cells_named(
    alloc: Global,
    index: &RuleIndex,
    design: &Design,
    word: &str,
    order: &[u32],
) -> Result<Seq<u32>, Refusal>
    requires numbered { AreNumbered design.now index.now }
    requires order { order.now ≡ cell_order design.now }
    ensures ok { IfOk result (AreAsked design.now (Some word.now)) }
    ensures err { IfErr result (Tells (OfCellWord design.now (Some word.now))) }
{
    let name = lowered_name(alloc, word.as_bytes())?;
    match index.cells.get(name.as_bytes()) {
        Some(top) => {
            let cells = cells_below(alloc, index, design, *top, order)?;
            Ok(cells)
        }
        None => Err(told(messages::no_name(alloc, name.as_bytes()))),
    }
}

/// The name of the cell that is asked for.
fn cell_word<'a>(request: &Request<'a>) -> Option<&'a str>
    ensures { value_of result ≡ cell_word request.now }
{
    match request {
        Request::Check { cell, .. } | Request::Classes { cell, .. } => *cell,
        Request::Replay { cell, .. } | Request::Arrive { cell, .. } | Request::Blif { cell, .. } =>
            Some(*cell),
        Request::Generate { .. } => None,
    }
}

/// The cells that are asked for, in their order: all, or one and those below it. A name that is not there is refused.
pub fn asked_cells(
    alloc: Global,
    request: &Request<'_>,
    index: &RuleIndex,
    design: &Design,
    order: Seq<u32>,
) -> Result<Seq<u32>, Refusal>
    requires numbered { AreNumbered design.now index.now }
    requires order { order ≡ cell_order design.now }
    ensures ok { IfOk result (AreAsked design.now (cell_word request.now)) }
    ensures err { IfErr result (Tells (OfCellWord design.now (cell_word request.now))) }
{
    match cell_word(request) {
        Some(word) => cells_named(alloc, index, design, word, order.as_slice()),
        None => Ok(order),
    }
}
