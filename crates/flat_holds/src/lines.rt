//! The `match` lines of rules.

ghost use Rattle.std.specs.Prelude.{◌≡◌, ◌&&◌, bytes_eq, find, slice_get};
ghost use Rattle.std.specs.Option.{option_copied};
ghost use Rattle.flat_holds.specs.Ends.{first_at, if_passes, is_line_of, is_match_of, line_above};
ghost use Rattle.net_places.specs.Places.{name_at};
ghost use Rattle.rule_index.specs.Lines.{AreChargeLines};
ghost use Rattle.vrt_model.specs.Comparison.{cell_at};

use net_places::{Place, Unrolled};
use rule_index::ChargeLines;
use vrt_model::{Design, HoldRule, InstanceMatchRule, MatchRule, Rules};

/// Whether a `match` line is of the net of a hold.
fn is_match_of(hold: &HoldRule, line: &MatchRule) -> bool
    ensures { result ≡ is_match_of hold.now line.now }
{
    line.cell.as_bytes() == hold.cell.as_bytes() && line.net.as_bytes() == hold.net.as_bytes()
}

/// The `match` line at a place, if it is of the net of a hold.
fn match_at<'a>(lines: &'a [MatchRule], at: usize, hold: &HoldRule) -> Option<&'a MatchRule>
    ensures { option_copied result ≡ if_passes (is_match_of hold.now) (slice_get lines.entry.now at) }
{
    match lines.get(at) {
        Some(line) => if is_match_of(hold, line) {
            Some(line)
        } else {
            None
        },
        None => None,
    }
}

/// The first of the `match` lines at places that is of the net of a hold.
fn match_among<'a>(
    lines: &'a [MatchRule],
    places: &[usize],
    hold: &HoldRule,
) -> Option<&'a MatchRule>
    ensures { option_copied result ≡ first_at (is_match_of hold.now) lines.entry.now places.now }
{
    let mut left = places;
    'places: while let Some((at, behind)) = left.split_first() {
        if let Some(line) = match_at(lines, *at, hold) {
            return Some(line);
        }
        left = behind;
    }
    None
}

/// The `match` line of a hold in its own cell.
pub(crate) fn match_of<'a>(
    rules: &'a Rules,
    lines: &ChargeLines,
    hold: &HoldRule,
) -> Option<&'a MatchRule>
    requires { AreChargeLines rules.now lines.now }
    ensures { option_copied result ≡ find (is_match_of hold.now) rules.entry.now.matches }
{
    let places = lines.matches.places(hold.cell.as_bytes());
    match_among(rules.matches.as_slice(), places, hold)
}

/// Whether a `match` line of a cell is of an element of an instance in it.
fn is_line_of(cell: &[u8], instance: &[u8], element: &[u8], line: &InstanceMatchRule) -> bool
    ensures { result ≡ is_line_of cell.now instance.now element.now line.now }
{
    line.cell.as_bytes() == cell
        && line.instance.as_bytes() == instance
        && line.inner.as_bytes() == element
}

/// The `match` line at a place, if it is of an element of an instance in a cell.
fn line_at<'a>(
    lines: &'a [InstanceMatchRule],
    at: usize,
    cell: &[u8],
    instance: &[u8],
    element: &[u8],
) -> Option<&'a InstanceMatchRule>
    ensures { option_copied result ≡ if_passes (is_line_of cell.now instance.now element.now) (slice_get lines.entry.now at) }
{
    match lines.get(at) {
        Some(line) => if is_line_of(cell, instance, element, line) {
            Some(line)
        } else {
            None
        },
        None => None,
    }
}

/// The first of the `match` lines at places that is of an element of an instance in a cell.
fn line_among<'a>(
    lines: &'a [InstanceMatchRule],
    places: &[usize],
    cell: &[u8],
    instance: &[u8],
    element: &[u8],
) -> Option<&'a InstanceMatchRule>
    ensures { option_copied result ≡ first_at (is_line_of cell.now instance.now element.now) lines.entry.now places.now }
{
    let mut left = places;
    'places: while let Some((at, behind)) = left.split_first() {
        if let Some(line) = line_at(lines, *at, cell, instance, element) {
            return Some(line);
        }
        left = behind;
    }
    None
}

/// The `match` line of a cell that is of an element of an instance in it.
fn line_of<'a>(
    rules: &'a Rules,
    lines: &ChargeLines,
    cell: &[u8],
    instance: &[u8],
    element: &[u8],
) -> Option<&'a InstanceMatchRule>
    requires { AreChargeLines rules.now lines.now }
    ensures { option_copied result ≡ find (is_line_of cell.now instance.now element.now) rules.entry.now.instance_matches }
{
    let places = lines.instance_matches.places(cell);
    line_among(
        rules.instance_matches.as_slice(),
        places,
        cell,
        instance,
        element,
    )
}

/// The name of a cell, empty where there is none.
pub(crate) fn cell_name(design: &Design, cell: usize) -> &[u8]
    ensures { result.now ≡ (cell_at design.now cell).name }
{
    match design.cells.get(cell) {
        Some(cell) => cell.name.as_bytes(),
        None => [].as_slice(),
    }
}

/// The name on an instance card of a cell, empty where there is no such card.
fn card_name(design: &Design, cell: usize, card: usize) -> &[u8]
    ensures { result.now ≡ name_at design.now cell card }
{
    match design.cells.get(cell) {
        Some(found) => match found.instances.get(card) {
            Some(instance) => instance.name.as_bytes(),
            None => [].as_slice(),
        },
        None => [].as_slice(),
    }
}

/// The line of the cell around a place that is of an element of the place's model.
pub(crate) fn line_above<'a>(
    rules: &'a Rules,
    lines: &ChargeLines,
    design: &Design,
    unrolled: &Unrolled,
    place: &Place,
    element: &[u8],
) -> Option<&'a InstanceMatchRule>
    requires { AreChargeLines rules.now lines.now }
    ensures { option_copied result ≡ line_above rules.entry.now.instance_matches design.now unrolled.now place.now element.now }
{
    match unrolled.places.get(place.around) {
        Some(outer) => line_of(
            rules,
            lines,
            cell_name(design, outer.cell),
            card_name(design, outer.cell, place.card),
            element,
        ),
        None => None,
    }
}
