//! The care set of a phase: the valuations that meet its constraints.

ghost use Rattle.std.specs.Prelude.{◌≡◌, ℕ, ◌+◌, ◌*◌, ◌≤◌, Bool, List, length};
ghost use Rattle.bdd_core.specs.Store.{Gives, IsLive, IsSpan, function_of};
ghost use Rattle.bdd_core.specs.Words.{IsFilled};
ghost use Rattle.bdd_ops.specs.Counting.{Counts, IsSpanWithin};
ghost use Rattle.hold_groups.specs.Grouped.{AreGroups};
ghost use Rattle.hold_keep.specs.Rooted.{bits_at, members_in};
ghost use Rattle.vrt_model.specs.Comparison.{cell_at};
ghost use Rattle.constraints.specs.Cared.{AddsHeld, HasInputs, assumed_size, groups_meet, member_meets, members_meet, meets_by};

use crate::assumptions::add_assumptions;
use crate::bits::add_bit;
use crate::cells::{cell_name, cell_ports, phase_bits};
use crate::given_ports::GivenPorts;
use crate::ports::Ports;
use bdd_core::{H, ONE, Spent, Store};
use hold_groups::{enter_of, entered_bit};
use hold_keep::{group_bit, held_bit};
use node_pool::Span;
use vrt_model::{Circuit, Design, Group, Member, Rules, Seq, Source, Vars};

/// The holds of a circuit as a phase begins, and what its variables stand for.
#[derive(Clone, Copy)]
struct Entering<'a> {
    /// The circuit.
    circuit: &'a Circuit,
    /// What the variables stand for.
    sources: &'a [Source],
    /// The number of the phase.
    phase: u32,
}

/// A function, where besides a member of the group of a number has the value with which it enters the phase, if it has one.
fn add_entered(
    store: &mut Store,
    entering: Entering<'_>,
    number: usize,
    group: &Group,
    member: Member,
    all: H,
) -> Result<H, Spent>
    requires vars { length entering.sources.now ≤ store.old.vars }
    requires all { IsLive store.old all }
    ensures { AddsHeld entering.entry.sources.now 3 (function_of store.old all) (λ (bits : List Bool). member_meets entering.entry.circuit.now entering.entry.phase entering.entry.sources.now bits number group.now member) store.old store.new result }
{
    store.sound();
    let Some(value) = enter_of(entering.circuit, entering.phase, member.hold) else {
        return Ok(all);
    };
    let entered = entered_bit(entering.circuit, entering.phase, group);
    let bit = match group_bit(store, entering.sources, number, group.element, entered) {
        Ok(bit) => bit,
        Err(spent) => return Err(spent),
    };
    let held = match held_bit(store, bit, member.inverted) {
        Ok(held) => held,
        Err(spent) => return Err(spent),
    };
    add_bit(store, value, held, all)
}

/// A function, where besides each member of the group of a number has the value with which it enters the phase.
fn add_members(
    store: &mut Store,
    entering: Entering<'_>,
    number: usize,
    group: &Group,
    start: H,
) -> Result<H, Spent>
    requires vars { length entering.sources.now ≤ store.old.vars }
    requires start { IsLive store.old start }
    ensures { AddsHeld entering.entry.sources.now (3 * length group.now.members) (function_of store.old start) (λ (bits : List Bool). members_meet entering.entry.circuit.now entering.entry.phase entering.entry.sources.now bits number group.now group.now.members) store.old store.new result }
{
    store.sound();
    let members = group.members.as_slice();
    let mut all = start;
    let mut at = members.len();
    'back: while at > 0 {
        at -= 1;
        all = match add_entered(store, entering, number, group, members[at], all) {
            Ok(all) => all,
            Err(spent) => return Err(spent),
        };
    }
    Ok(all)
}

/// A function, where besides each member of groups has the value with which it enters the phase.
fn add_groups(
    store: &mut Store,
    entering: Entering<'_>,
    groups: &[Group],
    start: H,
) -> Result<H, Spent>
    requires vars { length entering.sources.now ≤ store.old.vars }
    requires start { IsLive store.old start }
    ensures { AddsHeld entering.entry.sources.now (3 * members_in groups.now) (function_of store.old start) (λ (bits : List Bool). groups_meet entering.entry.circuit.now entering.entry.phase entering.entry.sources.now bits 0 groups.now) store.old store.new result }
{
    store.sound();
    let mut all = start;
    let mut at = groups.len();
    'back: while at > 0 {
        at -= 1;
        all = match add_members(store, entering, at, &groups[at], all) {
            Ok(all) => all,
            Err(spent) => return Err(spent),
        };
    }
    Ok(all)
}

/// The valuations of a phase that meet its constraints: each `assume` line of the checked cell for the phase is true, and each
/// hold that has an `enter` line for the phase has that constant as its held value. `roots` has a handle for each net of the
/// circuit, of which those of the inputs count: the handle of an input is that of its variable.
///
/// Handles from before keep their functions and no word changes, also after `Spent`, which has the budget and comes only
/// where as many nodes are there. Where the handles and the variables are among the first `u` variables, at most
/// `2 ^ u * 20 * (e + h)` nodes are added, for `e` operators and names of these lines and `h` holds, and they test these
/// variables. `Spent` comes only where the budget is less than all of these with the nodes that were there; and, where `u` is
/// at most 4 and the nodes that were there test the first four variables, only where the budget is less than 65,536.
pub fn care(
    store: &mut Store,
    design: &Design,
    rules: &Rules,
    cell: u32,
    circuit: &Circuit,
    groups: &Seq<Group>,
    vars: &Vars,
    phase: u32,
    roots: Span,
) -> Result<H, Spent>
    requires groups { AreGroups circuit.now groups.now }
    requires vars { length vars.now.sources ≤ store.old.vars }
    requires span { IsSpan store.old roots }
    requires live { IsFilled store.old roots }
    requires len { roots.len ≡ length circuit.now.nets }
    requires inputs { HasInputs circuit.now vars.now.sources store.old roots }
    ensures gives { Gives store.old store.new (λ v. meets_by design.now rules.now cell circuit.now groups.now vars.now.sources phase (bits_at vars.now.sources v)) result }
    ensures counts { (u : ℕ) → length vars.now.sources ≤ u → IsSpanWithin u store.old roots → Counts u (20 * (assumed_size rules.now (cell_at design.now cell).name phase + length circuit.now.holds)) store.old store.new result }
{
    store.sound();
    let ports = Ports::Given(GivenPorts {
        circuit,
        rules,
        names: cell_ports(design, cell),
        bits: phase_bits(rules, phase),
        values: roots,
    });
    let name = cell_name(design, cell);
    let assumed = match add_assumptions(store, rules.assumes.as_slice(), name, phase, ports, ONE) {
        Ok(assumed) => assumed,
        Err(spent) => return Err(spent),
    };
    let entering = Entering {
        circuit,
        sources: vars.sources.as_slice(),
        phase,
    };
    add_groups(store, entering, groups.as_slice(), assumed)
}
