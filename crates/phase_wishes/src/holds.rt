//! What holds ought to be given in a phase.

ghost use Rattle.std.specs.Prelude.{◌≡◌, ℕ, ◌+◌, ◌++◌, ◌∷◌, All, List, [], IfOk, OnOk};
ghost use Rattle.std.specs.List.{cons_option};
ghost use Rattle.hold_groups.specs.Grouped.{AreGroups};
ghost use Rattle.vrt_model.specs.Circuits.{IsCircuit};
ghost use Rattle.vrt_model.specs.Faults.{next_phase};
ghost use Rattle.vrt_model.specs.declared.groups.Group.{Group as GroupValue};
ghost use Rattle.vrt_model.specs.declared.rules.Rules.{Rules as RulesValue};
ghost use Rattle.vrt_model.specs.declared.verdict.FaultKind.TheVariants.{Enter};
ghost use Rattle.phase_wishes.specs.Held.{AddsHeld, AreHeldWishes, IsHoldWish, held_kinds, kind_of, wish_by, wishes_from};

use crate::bases::{Stored, kind_of};
use crate::tables::{no_wishes, put_enters, put_groups};
use crate::wishes::{Wanted, Wish};
use std::alloc::Global;
use vrt_model::{Circuit, FaultKind, Group, Net, NoMemory, Rules, Seq};

/// Adds the wish of an entry at a net, if there is one.
fn add_wish(
    wishes: &mut Seq<Wish>,
    kind: FaultKind,
    net: u32,
    found: Option<Wanted>,
) -> Result<(), NoMemory>
    ensures { OnOk result (wishes.new ≡ wishes.old ++ cons_option (wish_by kind net found) []) }
{
    let Some(wanted) = found else {
        return Ok(());
    };
    let wish = Wish {
        kind,
        place: net,
        net: Net(net),
        wanted,
        free: None,
    };
    match wishes.push(wish) {
        Ok(()) => Ok(()),
        Err(_) => Err(NoMemory),
    }
}

/// The number after a number. Where it needs more than 32 bits, it is refused as want of memory.
fn next(number: u32) -> Result<u32, NoMemory>
    ensures { IfOk result (λ n. n ≡ number + 1) }
{
    match number.checked_add(1) {
        Some(next) => Ok(next),
        None => Err(NoMemory),
    }
}

/// Adds the wishes of the entries of a table, in the order of the nets.
#[tactic(auto, using(vrt_model::proofs::Lists::pushed))]
fn add_wishes(
    wishes: &mut Seq<Wish>,
    kind: FaultKind,
    table: &[Option<Wanted>],
) -> Result<(), NoMemory>
    ensures { OnOk result (wishes.new ≡ wishes.old ++ wishes_from kind 0 table.now) }
{
    let mut number = 0;
    let mut rest = table;
    'nets: while let Some((found, behind)) = rest.split_first() {
        add_wish(wishes, kind, number, *found)?;
        number = next(number)?;
        rest = behind;
    }
    Ok(())
}

/// Adds what the holds of such groups ought to have.
fn add_stored(
    wishes: &mut Seq<Wish>,
    alloc: Global,
    circuit: &Circuit,
    stored: Stored,
    groups: &Seq<Group>,
) -> Result<(), NoMemory>
    requires circuit { IsCircuit circuit.now }
    requires groups { AreGroups circuit.now groups.now }
    ensures { OnOk result ((rules : RulesValue) (phase : ℕ) → AddsHeld circuit.now rules groups.now phase (kind_of stored ∷ []) wishes.old wishes.new) }
{
    let mut table = no_wishes(alloc, circuit.nets.len())?;
    put_groups(&mut table, circuit, stored, groups.as_slice());
    add_wishes(wishes, kind_of(stored), table.as_slice())?;
    Ok(())
}

/// The number of the phase after a phase: the first follows the last.
fn phase_after(rules: &Rules, phase: u32) -> Result<u32, NoMemory>
    ensures { IfOk result (λ n. n ≡ next_phase rules.now phase) }
{
    let behind = next(phase)?;
    if behind as usize == rules.phases.len() {
        Ok(0)
    } else {
        Ok(behind)
    }
}

/// Adds the constants with which holds enter the phase after a phase.
fn add_entered(
    wishes: &mut Seq<Wish>,
    alloc: Global,
    circuit: &Circuit,
    rules: &Rules,
    phase: u32,
) -> Result<(), NoMemory>
    requires { IsCircuit circuit.now }
    ensures { OnOk result ((groups : List GroupValue) → AddsHeld circuit.now rules.now groups phase (Enter ∷ []) wishes.old wishes.new) }
{
    let after = phase_after(rules, phase)?;
    let mut table = no_wishes(alloc, circuit.nets.len())?;
    put_enters(&mut table, circuit, after)?;
    add_wishes(wishes, FaultKind::Enter, table.as_slice())?;
    Ok(())
}

/// Adds all that holds ought to be given, where there is nothing yet.
fn add_all(
    wishes: &mut Seq<Wish>,
    alloc: Global,
    circuit: &Circuit,
    rules: &Rules,
    groups: &Seq<Group>,
    phase: u32,
) -> Result<(), NoMemory>
    requires circuit { IsCircuit circuit.now }
    requires groups { AreGroups circuit.now groups.now }
    requires empty { wishes.old ≡ [] }
    ensures wishes { OnOk result (AreHeldWishes circuit.now rules.now groups.now phase held_kinds wishes.new) }
    ensures known { OnOk result (All (IsHoldWish circuit.now groups.now) wishes.new) }
{
    add_stored(wishes, alloc, circuit, Stored::Latches, groups)?;
    add_stored(wishes, alloc, circuit, Stored::Others, groups)?;
    add_entered(wishes, alloc, circuit, rules, phase)?;
    Ok(())
}

/// All that holds ought to be given in a phase: where a group reaches a latch element, its holds the element's new bit; the holds
/// of another group the bit of its least net; and each hold with an `enter` line for the next phase its constant. The polarity of
/// each hold counts. The wishes of each of the three stand in the order of the nets.
pub fn hold_wishes(
    alloc: Global,
    circuit: &Circuit,
    rules: &Rules,
    groups: &Seq<Group>,
    phase: u32,
) -> Result<Seq<Wish>, NoMemory>
    requires circuit { IsCircuit circuit.now }
    requires groups { AreGroups circuit.now groups.now }
    ensures wishes { IfOk result (AreHeldWishes circuit.now rules.now groups.now phase held_kinds) }
    ensures known { IfOk result (All (IsHoldWish circuit.now groups.now)) }
{
    let mut wishes = Seq::new(alloc);
    add_all(&mut wishes, alloc, circuit, rules, groups, phase)?;
    Ok(wishes)
}
