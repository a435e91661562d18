//! The held values of the holds of a circuit, written into the words of their nets.

ghost use Rattle.std.specs.Prelude.{◌≡◌, ℕ, ◌*◌, ◌≤◌, false, IfErr, IfOk, length};
ghost use Rattle.bdd_core.specs.Diagram.{IsWithin, Valuation};
ghost use Rattle.bdd_core.specs.Store.{IsLive, IsSpan, function_of};
ghost use Rattle.bdd_ops.specs.Counting.{Counts};
ghost use Rattle.vrt_model.specs.Circuits.{IsCircuit};
ghost use Rattle.vrt_model.specs.Held.{held_bit};
ghost use Rattle.hold_groups.specs.Grouped.{AreGroups};
ghost use Rattle.hold_keep.specs.Rooted.{AreRoots, HaveWords, Rewrites, WritesHolds, group_function, held_function, members_in, with_groups, with_hold, with_holds};

use crate::bits::{group_bit, held_bit};
use bdd_core::{H, Spent, Store};
use hold_groups::entered_bit;
use node_pool::Span;
use vrt_model::{Circuit, Group, Member, Seq, Source, Vars};

/// The holds of a circuit, what the variables of a phase stand for, and where the held values are written.
#[derive(Clone, Copy)]
struct Roots<'a> {
    circuit: &'a Circuit,
    sources: &'a [Source],
    phase: u32,
    words: Span,
}

/// Writes the constant 0 for each hold.
fn clear(store: &mut Store, circuit: &Circuit, words: Span)
    requires span { IsSpan store.old words }
    requires own { HaveWords circuit.now words }
    ensures writes { WritesHolds circuit.now words store.old store.new }
    ensures nodes { store.new.nodes ≡ store.old.nodes }
    ensures zero { AreRoots circuit.now words store.new (λ (place : ℕ) (v : Valuation). false) }
{
    store.sound();
    for hold in circuit.holds.as_slice() {
        store.write(words, hold.net.0, 0);
    }
}

/// Writes the held value of a member of a group with this bit.
fn write_member(
    store: &mut Store,
    circuit: &Circuit,
    words: Span,
    member: Member,
    bit: H,
) -> Result<(), Spent>
    requires span { IsSpan store.old words }
    requires own { HaveWords circuit.now words }
    requires bit { IsLive store.old bit }
    ensures writes { WritesHolds circuit.now words store.old store.new }
    ensures held { (vars : ℕ) → IsWithin vars (function_of store.old bit) → Rewrites circuit.now words vars 1 (with_hold member (function_of store.old bit)) store.old store.new result }
{
    store.sound();
    let Some(hold) = circuit.holds.get(member.hold as usize) else {
        return Ok(());
    };
    let held = match held_bit(store, bit, member.inverted) {
        Ok(held) => held,
        Err(spent) => return Err(spent),
    };
    store.write(words, hold.net.0, held.0);
    Ok(())
}

/// Writes the held values of members of a group with this bit, from the last to the first.
fn write_members(
    store: &mut Store,
    circuit: &Circuit,
    words: Span,
    members: &[Member],
    bit: H,
) -> Result<(), Spent>
    requires span { IsSpan store.old words }
    requires own { HaveWords circuit.now words }
    requires bit { IsLive store.old bit }
    ensures { (vars : ℕ) → IsWithin vars (function_of store.old bit) → Rewrites circuit.now words vars (length members.now) (with_holds members.now (function_of store.old bit)) store.old store.new result }
{
    store.sound();
    let mut at = members.len();
    'back: while at > 0 {
        at -= 1;
        match write_member(store, circuit, words, members[at], bit) {
            Ok(()) => {}
            Err(spent) => return Err(spent),
        }
    }
    Ok(())
}

/// Writes the held values of the members of the group of a number.
fn write_group(
    store: &mut Store,
    roots: Roots<'_>,
    number: usize,
    group: &Group,
) -> Result<(), Spent>
    requires span { IsSpan store.old roots.words }
    requires own { HaveWords roots.circuit.now roots.words }
    requires vars { length roots.sources.now ≤ store.old.vars }
    ensures { Rewrites roots.entry.circuit.now roots.entry.words (length roots.entry.sources.now) (2 * length group.now.members) (with_holds group.now.members (group_function roots.entry.circuit.now roots.entry.phase roots.entry.sources.now number group.now)) store.old store.new result }
{
    store.sound();
    if group.members.is_empty() {
        return Ok(());
    }
    let entered = entered_bit(roots.circuit, roots.phase, group);
    let bit = match group_bit(store, roots.sources, number, group.element, entered) {
        Ok(bit) => bit,
        Err(spent) => return Err(spent),
    };
    let members = group.members.as_slice();
    write_members(store, roots.circuit, roots.words, members, bit)
}

/// Writes the held values of the members of groups, from the last group to the first, so that of two groups with one hold
/// the first counts.
fn write_groups(store: &mut Store, roots: Roots<'_>, groups: &[Group]) -> Result<(), Spent>
    requires span { IsSpan store.old roots.words }
    requires own { HaveWords roots.circuit.now roots.words }
    requires vars { length roots.sources.now ≤ store.old.vars }
    ensures { Rewrites roots.entry.circuit.now roots.entry.words (length roots.entry.sources.now) (2 * members_in groups.now) (with_groups roots.entry.circuit.now roots.entry.phase roots.entry.sources.now 0 groups.now) store.old store.new result }
{
    store.sound();
    let mut at = groups.len();
    'back: while at > 0 {
        at -= 1;
        match write_group(store, roots, at, &groups[at]) {
            Ok(()) => {}
            Err(spent) => return Err(spent),
        }
    }
    Ok(())
}

/// Writes the held value of each hold as a function of the variables into the word of its net: the bit of its group with the
/// hold's polarity. The bit of a group that reaches a latch element is that of the element; the bit of another group is the
/// one with which it enters the phase, where an `enter` line gives it one, and else its variable. A hold at a supply, a clock
/// port or an input has a held value too, which is not the value of its net there.
///
/// Handles from before keep their functions and words of other nets stay as they are, also after `Spent`, which has the
/// budget and comes only where as many nodes are there. Where there are at most `u` variables, at most `2 ^ u * 2 * h` nodes
/// are added, for `h` holds, and they test these variables. `Spent` comes only where the budget is less than all of these
/// with the nodes that were there; and, where `u` is at most 4 and the nodes that were there test the first four variables,
/// only where the budget is less than 65,536.
pub fn held_roots(
    store: &mut Store,
    circuit: &Circuit,
    groups: &Seq<Group>,
    vars: &Vars,
    phase: u32,
    roots: Span,
) -> Result<(), Spent>
    requires circuit { IsCircuit circuit.now }
    requires groups { AreGroups circuit.now groups.now }
    requires vars { length vars.now.sources ≤ store.old.vars }
    requires span { IsSpan store.old roots }
    requires len { roots.len ≡ length circuit.now.nets }
    ensures writes { WritesHolds circuit.now roots store.old store.new }
    ensures held { IfOk result (λ _. AreRoots circuit.now roots store.new (held_function circuit.now groups.now phase vars.now.sources)) }
    ensures spent { IfErr result (λ spent. (spent.nodes ≡ store.new.budget) × (length store.new.nodes ≡ store.new.budget)) }
    ensures counts { (u : ℕ) → length vars.now.sources ≤ u → Counts u (2 * length circuit.now.holds) store.old store.new result }
{
    clear(store, circuit, roots);
    let roots = Roots {
        circuit,
        sources: vars.sources.as_slice(),
        phase,
        words: roots,
    };
    write_groups(store, roots, groups.as_slice())
}
