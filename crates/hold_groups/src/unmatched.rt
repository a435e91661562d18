//! Latch elements that no hold stands for, and `match` lines that name no element.

ghost use Rattle.std.specs.Prelude.{◌≡◌, ◌<◌, ◌||◌, ◌==◌, ℕ, Bool, List, false, not, filter_map, get_or, length, option_and_then, option_map, position, slice_get, unwrap_or, IfOk};
ghost use Rattle.std.specs.Option.{option_copied, option_or};
ghost use Rattle.vrt_model.specs.Unsupported.{is_reached};
ghost use Rattle.vrt_model.specs.declared.rules.InstanceMatchRule.{InstanceMatchRule as InstanceMatchValue};
ghost use Rattle.vrt_model.specs.declared.rules.MatchRule.{MatchRule as MatchValue};
ghost use Rattle.hold_groups.specs.Elements.{IsTable};
ghost use Rattle.hold_groups.specs.Steps.{earlier, earliest, element_without, instance_line, line_by, line_in, line_without, net_line, unmatched_in};

use crate::elements::ElementTable;
use std::alloc::Global;
use vrt_model::{Group, InstanceMatchRule, MatchRule, NoMemory, Rules, Text};

/// A line of the rules and the latch that it names.
#[derive(Clone, Copy)]
pub(crate) struct MatchLine<'a> {
    line: u32,
    latch: &'a [u8],
}

/// For each element the mark 0.
fn no_marks(alloc: Global, count: usize) -> Result<Vec<bool>, NoMemory>
    ensures len { IfOk result (λ t. length t.items ≡ count) }
    ensures none { IfOk result (λ t. (e : ℕ) → get_or t.items e false ≡ false) }
{
    let mut marks = Vec::new(alloc);
    match marks.resize(count, false) {
        Ok(()) => Ok(marks),
        Err(_) => Err(NoMemory),
    }
}

/// Sets the mark of an element, if there is one.
fn mark(marks: &mut Vec<bool>, element: Option<u32>)
    ensures len { length marks.new.items ≡ length marks.old.items }
    ensures marked { (e : ℕ) → e < length marks.old.items → get_or marks.new.items e false ≡ (get_or marks.old.items e false || unwrap_or (option_map (λ (other : ℕ). other == e) element) false) }
{
    if let Some(element) = element {
        let at = element as usize;
        if at < marks.len() {
            marks[at] = true;
        }
    }
}

/// Sets the marks of the elements that groups reach, where none is set. There is a mark for each element.
fn mark_reached(marks: &mut Vec<bool>, groups: &[Group])
    requires { (e : ℕ) → get_or marks.old.items e false ≡ false }
    ensures len { length marks.new.items ≡ length marks.old.items }
    ensures marked { (e : ℕ) → e < length marks.old.items → get_or marks.new.items e false ≡ is_reached groups.now e }
{
    let mut rest = groups;
    'groups: while let Some((group, behind)) = rest.split_first() {
        mark(marks, group.element);
        rest = behind;
    }
}

/// The place of the first mark that is not set.
fn first_unset(marks: &[bool]) -> Option<usize>
    ensures { result ≡ position (λ (mark : Bool). not mark) marks.now }
{
    marks.iter().position(|mark| !*mark)
}

/// The place of the first element without a group, of so many.
fn first_unreached(alloc: Global, count: usize, groups: &[Group]) -> Result<Option<usize>, NoMemory>
    ensures { IfOk result (λ at. (names : List (List ℕ)) → length names ≡ count → option_and_then (slice_get names) at ≡ element_without names groups.now) }
{
    let mut marks = no_marks(alloc, count)?;
    mark_reached(&mut marks, groups);
    Ok(first_unset(marks.as_slice()))
}

/// The name at a place, if there is one.
fn name_at(names: &[Text], at: Option<usize>) -> Option<&[u8]>
    ensures { option_copied result ≡ option_and_then (slice_get names.now) at }
{
    match names.get(at?) {
        Some(name) => Some(name.as_bytes()),
        None => None,
    }
}

/// A `match` line, if it is for a cell and names no element.
fn line_by<'a>(
    elements: &ElementTable,
    cell: &[u8],
    of: &[u8],
    line: u32,
    latch: &'a [u8],
) -> Option<MatchLine<'a>>
    requires { IsTable elements.now }
    ensures { line_in result ≡ line_by elements.now.list cell.now of.now line latch.entry.now }
{
    if of == cell && !elements.contains(latch) {
        Some(MatchLine { line, latch })
    } else {
        None
    }
}

/// Of two lines that of the lower number, and of one number the first.
fn earlier<'a>(one: Option<MatchLine<'a>>, other: Option<MatchLine<'a>>) -> Option<MatchLine<'a>>
    ensures { line_in result ≡ earlier (line_in one.entry) (line_in other.entry) }
{
    match (one, other) {
        (Some(first), Some(second)) => Some(if second.line < first.line {
            second
        } else {
            first
        }),
        (Some(first), None) => Some(first),
        (None, other) => other,
    }
}

/// The first `match` line of a net of a cell that names no element.
fn net_line<'a>(
    elements: &ElementTable,
    cell: &[u8],
    rules: &'a [MatchRule],
) -> Option<MatchLine<'a>>
    requires { IsTable elements.now }
    ensures { line_in result ≡ earliest (filter_map (net_line elements.now.list cell.now) rules.entry.now) }
{
    let mut first = None;
    for rule in rules {
        let (of, latch) = (rule.cell.as_bytes(), rule.latch.as_bytes());
        let line = line_by(elements, cell, of, rule.line, latch);
        first = earlier(first, line);
    }
    first
}

/// The first `match` line of an instance in a cell that names no element.
fn instance_line<'a>(
    elements: &ElementTable,
    cell: &[u8],
    rules: &'a [InstanceMatchRule],
) -> Option<MatchLine<'a>>
    requires { IsTable elements.now }
    ensures { line_in result ≡ earliest (filter_map (instance_line elements.now.list cell.now) rules.entry.now) }
{
    let mut first = None;
    for rule in rules {
        let (of, latch) = (rule.cell.as_bytes(), rule.latch.as_bytes());
        let line = line_by(elements, cell, of, rule.line, latch);
        first = earlier(first, line);
    }
    first
}

/// The latch of the first `match` line of a cell that names no element.
fn line_without<'a>(rules: &'a Rules, cell: &[u8], elements: &ElementTable) -> Option<&'a [u8]>
    requires { IsTable elements.now }
    ensures { option_copied result ≡ line_without elements.now.list rules.entry.now cell.now }
{
    let net = net_line(elements, cell, rules.matches.as_slice());
    let instance = instance_line(elements, cell, rules.instance_matches.as_slice());
    match earlier(net, instance) {
        Some(line) => Some(line.latch),
        None => None,
    }
}

/// The name of the first element without a group, which has this place, else the latch of the first `match` line of a cell
/// that names no element.
fn name_of<'a>(
    rules: &'a Rules,
    cell: &[u8],
    elements: &'a ElementTable,
    unreached: Option<usize>,
) -> Option<&'a [u8]>
    requires { IsTable elements.now }
    ensures { option_copied result ≡ option_or (option_and_then (slice_get elements.entry.now.list) unreached) (line_without elements.entry.now.list rules.entry.now cell.now) }
{
    match name_at(elements.list(), unreached) {
        Some(name) => Some(name),
        None => line_without(rules, cell, elements),
    }
}

/// A copy of a name, if there is one.
fn copy_of(alloc: Global, name: Option<&[u8]>) -> Result<Option<Text>, NoMemory>
    ensures { IfOk result (λ text. text ≡ option_copied name.entry) }
{
    match name {
        Some(name) => Ok(Some(Text::from_bytes(alloc, name)?)),
        None => Ok(None),
    }
}

/// The name of the first element without a group, else the latch of the first `match` line of a cell that names no element.
pub(crate) fn unmatched(
    alloc: Global,
    rules: &Rules,
    cell: &[u8],
    elements: &ElementTable,
    groups: &[Group],
) -> Result<Option<Text>, NoMemory>
    requires { IsTable elements.now }
    ensures { IfOk result (λ name. name ≡ unmatched_in elements.now.list rules.now cell.now groups.now) }
{
    let unreached = first_unreached(alloc, elements.list().len(), groups)?;
    copy_of(alloc, name_of(rules, cell, elements, unreached))
}
