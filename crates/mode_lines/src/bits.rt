//! The bits of variables, of inputs and of holds at a valuation.

ghost use Rattle.std.specs.Prelude.{◌≡◌, ◌++◌, ℕ, Some, None, cond, find, [], ◌==◌, IfOk, OnOk};
ghost use Rattle.std.specs.List.{cons_option};
ghost use Rattle.mode_lines.specs.Points.{held_from, inputs_from, picks, setting_in};
ghost use Rattle.vrt_model.specs.Held.{bit_of, group_bit, held_bit, member_of};
ghost use Rattle.vrt_model.specs.Variables.{is_input};

use crate::points::CellPhase;
use hold_groups::entered_bit;
use std::alloc::Global;
use vrt_model::{FlatNet, Group, Member, NetKind, NoMemory, Seq, Source};

/// The variable that is looked for.
#[derive(Clone, Copy)]
pub(crate) enum Sought {
    /// That of the input at the net of a number.
    Input(usize),
    /// That of the latch element of a number.
    Element(u32),
    /// That of the group of a number.
    Group(usize),
}

/// Whether a variable is that of an input.
fn is_input_of(source: Source, net: usize) -> bool
    ensures { result ≡ picks (Sought.Input net) source }
{
    match source {
        Source::Input(other) => other.0 as usize == net,
        Source::Element(_) => false,
        Source::Group(_) => false,
    }
}

/// Whether a variable is that of a latch element.
fn is_element(source: Source, element: u32) -> bool
    ensures { result ≡ picks (Sought.Element element) source }
{
    match source {
        Source::Input(_) => false,
        Source::Element(other) => other == element,
        Source::Group(_) => false,
    }
}

/// Whether a variable is that of a group.
fn is_group(source: Source, group: usize) -> bool
    ensures { result ≡ picks (Sought.Group group) source }
{
    match source {
        Source::Input(_) => false,
        Source::Element(_) => false,
        Source::Group(other) => other as usize == group,
    }
}

/// Whether a variable is the one that is looked for.
fn picks(sought: Sought, source: Source) -> bool
    ensures { result ≡ picks sought source }
{
    match sought {
        Sought::Input(net) => is_input_of(source, net),
        Sought::Element(element) => is_element(source, element),
        Sought::Group(group) => is_group(source, group),
    }
}

/// The bit of the variable that is looked for, 0 where there is none.
pub(crate) fn bit_of(sources: &[Source], bits: &[bool], sought: Sought) -> bool
    ensures { result ≡ bit_of (picks sought) sources.now bits.now }
{
    let mut sources_left = sources;
    let mut bits_left = bits;
    'variables: while let (Some((source, sources)), Some((bit, bits))) = (
        sources_left.split_first(),
        bits_left.split_first(),
    ) {
        if picks(sought, *source) {
            return *bit;
        }
        sources_left = sources;
        bits_left = bits;
    }
    false
}

/// The bit of the group of a number: of its latch element, where it reaches one; else that with which it enters the phase, where
/// there is one; else of its variable.
fn group_bit(at: CellPhase<'_>, bits: &[bool], number: usize, group: &Group) -> bool
    ensures { result ≡ group_bit at.entry.circuit.now at.entry.phase at.entry.sources.now bits.now number group.now }
{
    let sources = at.sources.as_slice();
    match group.element {
        Some(element) => bit_of(sources, bits, Sought::Element(element)),
        None => match entered_bit(at.circuit, at.phase, group) {
            Some(value) => value,
            None => bit_of(sources, bits, Sought::Group(number)),
        },
    }
}

/// The member of a group that a hold is.
fn member_of(group: &Group, hold: usize) -> Option<Member>
    ensures { result ≡ member_of hold group.now }
{
    for member in group.members.as_slice() {
        if member.hold as usize == hold {
            return Some(*member);
        }
    }
    None
}

/// The held value of a hold: the bit of its group with its polarity.
pub(crate) fn held_bit(at: CellPhase<'_>, bits: &[bool], hold: usize) -> bool
    ensures { result ≡ held_bit at.entry.circuit.now at.entry.groups.now at.entry.phase at.entry.sources.now bits.now hold }
{
    let groups = at.groups.as_slice();
    for number in 0..groups.len() {
        let group = &groups[number];
        if let Some(member) = member_of(group, hold) {
            return member.inverted != group_bit(at, bits, number, group);
        }
    }
    false
}

/// The held values of all holds, by their places.
pub(crate) fn held_bits(
    alloc: Global,
    at: CellPhase<'_>,
    bits: &[bool],
) -> Result<Seq<bool>, NoMemory>
    ensures { IfOk result (λ held. held ≡ held_from (setting_in at.entry bits.now).held 0 at.entry.circuit.now.holds) }
{
    let mut held = Seq::new(alloc);
    let mut rest = at.circuit.holds.as_slice();
    'holds: while let Some((_hold, behind)) = rest.split_first() {
        let place = held.len();
        held.append(held_bit(at, bits, place))?;
        rest = behind;
    }
    Ok(held)
}

/// Whether a net is an input.
fn is_input(net: &FlatNet) -> bool
    ensures { result ≡ is_input net.now.kind }
{
    match net.kind {
        NetKind::Input => true,
        NetKind::Supply(_) => false,
        NetKind::Clock(_) => false,
        NetKind::Plain => false,
    }
}

/// Adds the bit of a net, if it is an input.
fn add_input(inputs: &mut Seq<bool>, input: bool, bit: bool) -> Result<(), NoMemory>
    ensures { OnOk result (inputs.new ≡ inputs.old ++ cons_option (cond input (Some bit) None) []) }
{
    if !input {
        return Ok(());
    }
    inputs.append(bit)
}

/// The bits of the inputs, in the order of their nets.
pub(crate) fn input_bits(
    alloc: Global,
    at: CellPhase<'_>,
    bits: &[bool],
) -> Result<Seq<bool>, NoMemory>
    ensures { IfOk result (λ inputs. inputs ≡ inputs_from (setting_in at.entry bits.now).inputs 0 at.entry.circuit.now.nets) }
{
    let nets = at.circuit.nets.as_slice();
    let sources = at.sources.as_slice();
    let mut inputs = Seq::new(alloc);
    for net in 0..nets.len() {
        let bit = bit_of(sources, bits, Sought::Input(net));
        add_input(&mut inputs, is_input(&nets[net]), bit)?;
    }
    Ok(inputs)
}
