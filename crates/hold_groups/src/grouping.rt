//! Holds with the same end, as groups in the order of their least nets.

ghost use Rattle.std.specs.Prelude.{◌≡◌, ◌<◌, ◌++◌, ◌∷◌, [], List, length, set, IfOk, OnOk};
ghost use Rattle.vrt_model.specs.Circuits.{IsCircuit};
ghost use Rattle.vrt_model.specs.Groups.{Placed, holds_by_net};
ghost use Rattle.vrt_model.specs.Lists.{At};
ghost use Rattle.vrt_model.specs.declared.groups.Group.{Group as GroupValue};
ghost use Rattle.hold_groups.specs.Elements.{IsTable};
ghost use Rattle.hold_groups.specs.Grouped.{Joins, element_in, end_number, groups_in, places_by_net, with_member};
ghost use Rattle.hold_groups.specs.Steps.{AreGrouped};

use crate::by_net::add_by_net;
use crate::elements::ElementTable;
use crate::ends::key_of;
use crate::lists::small;
use names::Names;
use std::alloc::Global;
use vrt_model::{Circuit, Group, Hold, HoldEnd, Member, NoMemory, Seq};

/// The number of the element of the checked cell's model that an end is.
fn element_number(elements: &ElementTable, end: &HoldEnd) -> Result<Option<u32>, NoMemory>
    requires { IsTable elements.now }
    ensures { IfOk result (λ element. element ≡ element_in elements.now.list end.now) }
{
    match elements.element_of(end) {
        Some(element) => Ok(Some(small(element)?)),
        None => Ok(None),
    }
}

/// Adds a member to a group.
fn add_to(group: &mut Group, member: Member) -> Result<(), NoMemory>
    ensures { OnOk result (group.new ≡ with_member group.old member) }
{
    group.members.append(member)
}

/// Adds a member to the group of a number.
fn join(groups: &mut Vec<Group>, number: usize, member: Member) -> Result<(), NoMemory>
    requires { number < length groups.old.items }
    ensures { OnOk result ((group : GroupValue) → At groups.old.items number group → groups.new.items ≡ set groups.old.items number (with_member group member)) }
{
    add_to(&mut groups[number], member)
}

/// Adds a group with one member, the last.
fn add_new(
    groups: &mut Vec<Group>,
    alloc: Global,
    member: Member,
    element: Option<u32>,
) -> Result<(), NoMemory>
    ensures { OnOk result (groups.new.items ≡ groups.old.items ++ (record { members = member ∷ []; element = element }) ∷ []) }
{
    let mut members = Seq::new(alloc);
    members.append(member)?;
    match groups.push(Group { members, element }) {
        Ok(()) => Ok(()),
        Err(_) => Err(NoMemory),
    }
}

/// Adds a member to the group of a number, or as the first of a new group where there is none.
fn add_member(
    groups: &mut Vec<Group>,
    alloc: Global,
    elements: &ElementTable,
    number: usize,
    member: Member,
    end: &HoldEnd,
) -> Result<(), NoMemory>
    requires { IsTable elements.now }
    ensures { OnOk result (Joins elements.now.list number member end.now groups.old.items groups.new.items) }
{
    if number < groups.len() {
        return join(groups, number, member);
    }
    let element = element_number(elements, end)?;
    add_new(groups, alloc, member, element)
}

/// Adds a hold to its group, which has the number of the key of its end.
fn add_hold(
    groups: &mut Vec<Group>,
    keys: &mut Names,
    alloc: Global,
    elements: &ElementTable,
    place: u32,
    hold: &Hold,
) -> Result<(), NoMemory>
    requires table { IsTable elements.now }
    requires small { end_number hold.now.end < 4294967296 }
    ensures { OnOk result ((done : List Placed) → AreGrouped elements.now.list done keys.old groups.old.items → AreGrouped elements.now.list (done ++ (record { place = place; hold = hold.now }) ∷ []) keys.new groups.new.items) }
{
    let key = key_of(alloc, &hold.end)?;
    let number = keys.number(key.as_bytes())?;
    let member = Member {
        hold: place,
        inverted: hold.inverted,
    };
    add_member(groups, alloc, elements, number, member, &hold.end)
}

/// Adds the hold at a place to its group.
fn add_at(
    groups: &mut Vec<Group>,
    keys: &mut Names,
    alloc: Global,
    circuit: &Circuit,
    elements: &ElementTable,
    place: u32,
) -> Result<(), NoMemory>
    requires circuit { IsCircuit circuit.now }
    requires table { IsTable elements.now }
    ensures { OnOk result ((done : List Placed) (h : Placed) → AreGrouped elements.now.list done keys.old groups.old.items → place ≡ h.place → At circuit.now.holds h.place h.hold → AreGrouped elements.now.list (done ++ h ∷ []) keys.new groups.new.items) }
{
    let Some(hold) = circuit.holds.get(place as usize) else {
        return Ok(());
    };
    add_hold(groups, keys, alloc, elements, place, hold)
}

/// Adds the holds at places to their groups, where there is no group yet.
fn add_holds(
    groups: &mut Vec<Group>,
    keys: &mut Names,
    alloc: Global,
    circuit: &Circuit,
    elements: &ElementTable,
    places: &[u32],
) -> Result<(), NoMemory>
    requires circuit { IsCircuit circuit.now }
    requires table { IsTable elements.now }
    requires places { places.now ≡ places_by_net circuit.now }
    requires keys { keys.old ≡ [] }
    requires groups { groups.old.items ≡ [] }
    ensures { OnOk result (groups.new.items ≡ groups_in elements.now.list (holds_by_net circuit.now)) }
{
    for place in places {
        add_at(groups, keys, alloc, circuit, elements, *place)?;
    }
    Ok(())
}

/// Makes the groups, where there is none yet. A group is found by the hash of the key of its end.
fn make_groups(
    groups: &mut Vec<Group>,
    alloc: Global,
    circuit: &Circuit,
    elements: &ElementTable,
) -> Result<(), NoMemory>
    requires circuit { IsCircuit circuit.now }
    requires table { IsTable elements.now }
    requires groups { groups.old.items ≡ [] }
    ensures { OnOk result (groups.new.items ≡ groups_in elements.now.list (holds_by_net circuit.now)) }
{
    let mut places = Vec::new(alloc);
    let mut keys = Names::new(alloc);
    add_by_net(alloc, &mut places, circuit)?;
    let places = places.as_slice();
    add_holds(groups, &mut keys, alloc, circuit, elements, places)
}

/// Adds all groups at the end of a list.
fn append_all(list: &mut Seq<Group>, groups: Vec<Group>) -> Result<(), NoMemory>
    ensures { OnOk result (list.new ≡ list.old ++ groups.items) }
{
    for group in groups {
        list.append(group)?;
    }
    Ok(())
}

/// Lists the groups of a circuit, where there is none yet.
pub(crate) fn list_groups(
    list: &mut Seq<Group>,
    alloc: Global,
    circuit: &Circuit,
    elements: &ElementTable,
) -> Result<(), NoMemory>
    requires circuit { IsCircuit circuit.now }
    requires table { IsTable elements.now }
    requires list { list.old ≡ [] }
    ensures { OnOk result (list.new ≡ groups_in elements.now.list (holds_by_net circuit.now)) }
{
    let mut groups = Vec::new(alloc);
    make_groups(&mut groups, alloc, circuit, elements)?;
    append_all(list, groups)
}
