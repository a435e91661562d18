//! The groups of holds of the first cell.

ghost use Rattle.hold_groups.specs.Grouped.{AreGroups};
ghost use Rattle.vrt_model.specs.Circuits.{IsCircuit};

use crate::checks::is_circuit;
use crate::drawing::number;
use crate::stop::Stop;
use crate::texts::Given;
use crate::variables;
use hold_groups::{MatchFault, groups};
use row_script::{Page, shown, word_and_rest};
use vrt_model::{Circuit, FlatModel, Group, Member, Seq};

/// The name of a net.
pub(crate) fn net_name(circuit: &Circuit, net: u32) -> &str {
    match circuit.nets.get(net as usize) {
        Some(net) => shown(net.name.as_bytes()),
        None => "?",
    }
}

/// Adds a member: the name of its net, with a `!` before it where it has the inverse of the group's bit.
fn add_member(page: &mut Page, circuit: &Circuit, member: Member) -> Result<(), Stop> {
    let Some(hold) = circuit.holds.get(member.hold as usize) else {
        return Err(Stop::Unfit);
    };
    page.word(if member.inverted { " !" } else { " " });
    page.word(net_name(circuit, hold.net.0));
    Ok(())
}

/// Adds a group: its members, and the number of its element.
fn add_group(page: &mut Page, circuit: &Circuit, group: &Group) -> Result<(), Stop> {
    page.word(",");
    for member in group.members.as_slice() {
        add_member(page, circuit, *member)?;
    }
    if let Some(element) = group.element {
        page.word(" of element");
        page.behind_blank(element);
    }
    Ok(())
}

/// Tells all groups.
fn tell_all(page: &mut Page, circuit: &Circuit, groups: &[Group]) -> Result<(), Stop> {
    page.word("groups ");
    page.count(groups.len(), "");
    for group in groups {
        add_group(page, circuit, group)?;
    }
    Ok(())
}

/// Tells why there are no groups.
fn tell_fault(page: &mut Page, fault: &MatchFault) -> Result<(), Stop> {
    let MatchFault::Unmatched { name } = fault else {
        return Err(Stop::NoMemory);
    };
    page.word("unmatched ");
    page.name(name.as_bytes());
    Ok(())
}

/// Tells the groups, or what is asked of a phase with them.
fn tell_with(
    page: &mut Page,
    given: Given<'_>,
    flat: &FlatModel,
    groups: &Seq<Group>,
    asked: &str,
) -> Result<(), Stop>
    requires circuit { IsCircuit given.circuit.now }
    requires groups { AreGroups given.circuit.now groups.now }
{
    let (word, rest) = word_and_rest(asked);
    if word == "groups" {
        return tell_all(page, given.circuit, groups.as_slice());
    }
    variables::tell(page, given, flat, groups, word, number(rest)?)
}

/// Tells what is asked of the first cell with a model.
pub(crate) fn tell(
    page: &mut Page,
    given: Given<'_>,
    flat: &FlatModel,
    asked: &str,
) -> Result<(), Stop> {
    if !is_circuit(given.circuit) {
        return Err(Stop::Unfit);
    }
    match groups(
        page.alloc(),
        given.design,
        given.circuit,
        flat,
        given.rules,
        0,
    ) {
        Ok(groups) => tell_with(page, given, flat, &groups, asked),
        Err(fault) => tell_fault(page, &fault),
    }
}
