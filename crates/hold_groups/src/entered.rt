//! The constants with which holds enter a phase, and which groups have a variable.

ghost use Rattle.std.specs.Prelude.{◌≡◌};
ghost use Rattle.vrt_model.specs.Variables.{enter_of, entered_bit, is_free};
ghost use Rattle.hold_groups.specs.Sources.{entered_by, value_in};

use vrt_model::{Circuit, Enter, Group, Member};

/// The value of the first of some `enter` lines that is for a phase.
fn value_in(enters: &[Enter], phase: u32) -> Option<bool>
    ensures { result ≡ value_in enters.now phase }
{
    match enters.iter().find(|enter| enter.phase == phase) {
        Some(enter) => Some(enter.value),
        None => None,
    }
}

/// The constant that an `enter` line gives a hold for a phase.
pub fn enter_of(circuit: &Circuit, phase: u32, hold: u32) -> Option<bool>
    ensures { result ≡ enter_of circuit.now phase hold }
{
    match circuit.holds.get(hold as usize) {
        Some(hold) => value_in(hold.enters.as_slice(), phase),
        None => None,
    }
}

/// The bit of a group with which a member of it has its constant for a phase.
fn entered_by(circuit: &Circuit, phase: u32, member: Member) -> Option<bool>
    ensures { result ≡ entered_by circuit.now phase member }
{
    match enter_of(circuit, phase, member.hold) {
        Some(value) => Some(member.inverted != value),
        None => None,
    }
}

/// The bit of a group with which the least net that has an `enter` line for a phase has its constant.
pub fn entered_bit(circuit: &Circuit, phase: u32, group: &Group) -> Option<bool>
    ensures { result ≡ entered_bit circuit.now phase group.now }
{
    let mut rest = group.members.as_slice();
    'members: while let Some((member, behind)) = rest.split_first() {
        let bit = entered_by(circuit, phase, *member);
        if bit.is_some() {
            return bit;
        }
        rest = behind;
    }
    None
}

/// Whether a group has a variable: it reaches no latch, and none of its nets has an `enter` line for the phase.
pub(crate) fn is_free(circuit: &Circuit, phase: u32, group: &Group) -> bool
    ensures { result ≡ is_free circuit.now phase group.now }
{
    group.element.is_none() && entered_bit(circuit, phase, group).is_none()
}
