//! The hold that a rule gives a net.

ghost use Rattle.std.specs.Prelude.{◌≡◌, IfOk};
ghost use Rattle.flat_holds.specs.Ends.{IsHold, end_from, instance_by, inverted_from};
ghost use Rattle.rule_index.specs.Tables.{AreIndexed};
ghost use Rattle.vrt_model.specs.Inputs.{IsDesign};

use crate::elements::{Element, element_of};
use crate::enters::enters_of;
use net_places::Unrolled;
use rule_index::RuleIndex;
use std::alloc::Global;
use vrt_model::{Design, Hold, HoldEnd, HoldRule, Net, NoMemory, Rules, Text};

/// The number of the instance at a place, none for the whole. A place too far on for a number counts as want of memory.
fn instance_at(place: usize) -> Result<Option<u32>, NoMemory>
    ensures { IfOk result (λ instance. instance ≡ instance_by place) }
{
    if place == 0 {
        return Ok(None);
    }
    let number = place - 1;
    if number > 4294967295 {
        return Err(NoMemory);
    }
    Ok(Some(number as u32))
}

/// The end of a hold at an element.
fn latch_end(alloc: Global, element: Element<'_>) -> Result<HoldEnd, NoMemory>
    ensures { IfOk result (λ end. end ≡ end_from 0 (Some element.entry)) }
{
    let instance = instance_at(element.place)?;
    let element = Text::from_bytes(alloc, element.name)?;
    Ok(HoldEnd::Latch { instance, element })
}

/// The end of a hold of a net: the element to which its lines lead, and its own net where it has none.
fn end_of(alloc: Global, net: Net, element: Option<Element<'_>>) -> Result<HoldEnd, NoMemory>
    ensures { IfOk result (λ end. end ≡ end_from net.0 element.entry) }
{
    match element {
        Some(element) => latch_end(alloc, element),
        None => Ok(HoldEnd::Own(net)),
    }
}

/// Whether a hold has the inverse of the bit at its end.
fn is_inverted(element: Option<Element<'_>>) -> bool
    ensures { result ≡ inverted_from element.entry }
{
    match element {
        Some(element) => element.inverted,
        None => false,
    }
}

/// The hold that a `hold` rule gives a net, at a place of the rule's cell: its size, the latch element to which its
/// `match` lines lead up through the places around it, with their polarities, or the net itself where it has no line, and
/// the constants of its `enter` lines. It takes time in proportion to the `match` and `enter` lines of its cell, and to
/// the `match` lines of the cells around it.
pub fn hold_at(
    alloc: Global,
    index: &RuleIndex,
    design: &Design,
    rules: &Rules,
    unrolled: &Unrolled,
    place: usize,
    rule: &HoldRule,
    net: Net,
) -> Result<Hold, NoMemory>
    requires netlist { IsDesign design.now }
    requires indexed { AreIndexed design.now rules.now index.now }
    ensures { IfOk result (IsHold design.now rules.now unrolled.now place rule.now net.0) }
{
    let lines = &index.lines.charges;
    let element = element_of(design, rules, lines, unrolled, place, rule);
    let enters = enters_of(alloc, rules, lines, rule)?;
    let end = end_of(alloc, net, element)?;
    Ok(Hold {
        net,
        size: rule.size,
        end,
        inverted: is_inverted(element),
        enters,
    })
}
