//! What holds ought to have, in a table by net.

ghost use Rattle.std.specs.Prelude.{◌≡◌, ℕ, ◌<◌, ◌==◌, Option, None, Some, Result, cond, get_or, length, replicate, IfOk, OnOk};
ghost use Rattle.phase_wishes.specs.Held.{IsOfEnter, IsOfEnters, IsOfGroup, IsOfGroups, IsOfMember, IsOfMembers, Puts};

use crate::bases::{Stored, base_of, with_polarity};
use crate::wishes::Wanted;
use hold_groups::enter_of;
use std::alloc::Global;
use vrt_model::{Circuit, Group, Member, Net, NoMemory};

/// For each net nothing.
pub(crate) fn no_wishes(alloc: Global, count: usize) -> Result<Vec<Option<Wanted>>, NoMemory>
    ensures { IfOk result (λ t. t.items ≡ replicate count None) }
{
    let mut table = Vec::new(alloc);
    match table.resize(count, None) {
        Ok(()) => Ok(table),
        Err(_) => Err(NoMemory),
    }
}

/// Puts what a net ought to have into a table, if the net is there.
fn put(table: &mut Vec<Option<Wanted>>, net: Net, wanted: Wanted)
    ensures len { length table.new.items ≡ length table.old.items }
    ensures noted { (n : ℕ) → n < length table.old.items → get_or table.new.items n None ≡ cond (net.0 == n) (Some wanted) (get_or table.old.items n None) }
{
    let at = net.0 as usize;
    if at < table.len() {
        table[at] = Some(wanted);
    }
}

/// Puts what the hold of a member ought to have.
fn put_member(table: &mut Vec<Option<Wanted>>, circuit: &Circuit, base: Wanted, member: Member)
    ensures { Puts (IsOfMember circuit.now base member) table.old.items table.new.items }
{
    match circuit.holds.get(member.hold as usize) {
        Some(hold) => put(table, hold.net, with_polarity(base, member.inverted)),
        None => {}
    }
}

/// Puts what the holds of members ought to have.
fn put_members(table: &mut Vec<Option<Wanted>>, circuit: &Circuit, base: Wanted, members: &[Member])
    ensures { Puts (IsOfMembers circuit.now base members.now) table.old.items table.new.items }
{
    let mut rest = members;
    'members: while let Some((member, behind)) = rest.split_first() {
        put_member(table, circuit, base, *member);
        rest = behind;
    }
}

/// Puts what the holds of a group ought to have, where it is such a group.
fn put_group(table: &mut Vec<Option<Wanted>>, circuit: &Circuit, stored: Stored, group: &Group)
    ensures { Puts (IsOfGroup circuit.now stored group.now) table.old.items table.new.items }
{
    match base_of(circuit, stored, group) {
        Some(base) => put_members(table, circuit, base, group.members.as_slice()),
        None => {}
    }
}

/// Puts what the holds of such groups ought to have.
pub(crate) fn put_groups(
    table: &mut Vec<Option<Wanted>>,
    circuit: &Circuit,
    stored: Stored,
    groups: &[Group],
)
    ensures { Puts (IsOfGroups circuit.now stored groups.now) table.old.items table.new.items }
{
    let mut rest = groups;
    'groups: while let Some((group, behind)) = rest.split_first() {
        put_group(table, circuit, stored, group);
        rest = behind;
    }
}

/// Puts the constant that the hold at a place ought to have for a phase, if it has one.
fn put_enter(table: &mut Vec<Option<Wanted>>, circuit: &Circuit, phase: u32, place: u32)
    ensures { Puts (IsOfEnter circuit.now phase place) table.old.items table.new.items }
{
    let member = Member {
        hold: place,
        inverted: false,
    };
    match enter_of(circuit, phase, place) {
        Some(value) => put_member(table, circuit, Wanted::Constant(value), member),
        None => {}
    }
}

/// Puts the constants that holds ought to have for a phase.
pub(crate) fn put_enters(
    table: &mut Vec<Option<Wanted>>,
    circuit: &Circuit,
    phase: u32,
) -> Result<(), NoMemory>
    ensures { OnOk result (Puts (IsOfEnters circuit.now phase) table.old.items table.new.items) }
{
    let Ok(count) = u32::try_from(circuit.holds.len()) else {
        return Err(NoMemory);
    };
    for place in 0..count {
        put_enter(table, circuit, phase, place);
    }
    Ok(())
}
