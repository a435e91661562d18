//! The latch elements to which `match` lines lead.

ghost use Rattle.std.specs.Prelude.{◌≡◌, ◌<◌};
ghost use Rattle.flat_holds.specs.Ends.{AllLead, HasElement};
ghost use Rattle.rule_index.specs.Lines.{AreChargeLines};
ghost use Rattle.vrt_model.specs.Lists.{differ};

use crate::lines::{line_above, match_of};
use net_places::Unrolled;
use rule_index::ChargeLines;
use vrt_model::{Design, HoldRule, Rules};

/// A latch element to which `match` lines lead.
#[derive(Clone, Copy)]
pub(crate) struct Element<'a> {
    /// The number of the place whose model has it, 0 for the whole.
    pub place: usize,
    /// Its name in that model.
    pub name: &'a [u8],
    /// Whether its bit is the inverse of the one that led to it.
    pub inverted: bool,
}

/// 1 where two polarities differ.
fn differ(one: bool, other: bool) -> bool
    ensures { result ≡ differ one other }
{
    if one { !other } else { other }
}

/// From an element of a place's model on by the line of the cell around it, and so on up as far as lines go.
fn led_up<'a>(
    design: &Design,
    rules: &'a Rules,
    lines: &ChargeLines,
    unrolled: &Unrolled,
    place: usize,
    name: &'a [u8],
    inverted: bool,
) -> Element<'a>
    requires { AreChargeLines rules.now lines.now }
    ensures { AllLead design.now rules.entry.now unrolled.now place name.entry.now inverted result.place result.name.now result.inverted }
{
    let last = Element {
        place,
        name,
        inverted,
    };
    let Some(here) = unrolled.places.get(place) else {
        return last;
    };
    if here.around >= place {
        return last;
    }
    match line_above(rules, lines, design, unrolled, here, name) {
        Some(line) => led_up(
            design,
            rules,
            lines,
            unrolled,
            here.around,
            line.latch.as_bytes(),
            differ(inverted, line.inverted),
        ),
        None => last,
    }
}

/// The element to which the `match` lines of a hold lead, at a place of its cell. None exactly where the hold has no line.
pub(crate) fn element_of<'a>(
    design: &Design,
    rules: &'a Rules,
    lines: &ChargeLines,
    unrolled: &Unrolled,
    place: usize,
    hold: &HoldRule,
) -> Option<Element<'a>>
    requires { AreChargeLines rules.now lines.now }
    ensures { HasElement design.now rules.entry.now unrolled.now place hold.now result }
{
    match match_of(rules, lines, hold) {
        Some(line) => Some(led_up(
            design,
            rules,
            lines,
            unrolled,
            place,
            line.latch.as_bytes(),
            line.inverted,
        )),
        None => None,
    }
}
