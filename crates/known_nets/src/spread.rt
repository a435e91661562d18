//! What spreads from net to net over the devices that are known to conduct.

ghost use Rattle.std.specs.Prelude.{◌≡◌, ℕ, ◌<◌, true, false, Some, length, slice_get, slice_index, OnOk};
ghost use Rattle.graphs.specs.Graphs.{sources_at};
ghost use Rattle.known_nets.specs.Conduction.{conduction_of, is_plain_at};
ghost use Rattle.known_nets.specs.Incidence.{IsIncidence};
ghost use Rattle.known_nets.specs.Spreads.{ArePlain, Goes, HasCrossed, HasSpread, IsEndOver, PassesAll, PassesFirst, PassesOver, given_amount, level_of_end, passed};
ghost use Rattle.vrt_model.specs.Lists.{At, Among};
ghost use Rattle.vrt_model.specs.Path.{Joins};
ghost use Rattle.vrt_model.specs.Reading.{is_in};
ghost use Rattle.vrt_model.specs.declared.circuit.Device.{Device as DeviceValue};

use crate::amounts::{Amounts, amount_at};
use crate::conducting::{conduction, is_plain, known_bit};
use crate::incidence::{Incidence, other_end};
use vrt_model::{Circuit, Device, NoMemory, Seq};

/// What spreads, as an amount at each net.
#[derive(Clone, Copy)]
pub(crate) enum Spread {
    /// 1 at the nets that are joined to those at which it begins.
    Joined,
    /// The strength of a net, from given nets of the source level.
    Strength,
    /// 1 at the nets at which a clear path from a given net of this bit ends.
    Value(bool),
}

/// A spread over the devices of a circuit that are known to conduct.
#[derive(Clone, Copy)]
pub(crate) struct Spreading<'a> {
    /// The circuit.
    pub(crate) circuit: &'a Circuit,
    /// Its devices by net.
    pub(crate) by: &'a Incidence,
    /// The known bits, by net.
    pub(crate) known: &'a [Option<bool>],
    /// What spreads.
    pub(crate) spread: Spread,
    /// The strengths of the nets, where a value spreads.
    pub(crate) levels: &'a [u8],
}

/// The level of a net: the source level where it is not plain.
fn level_at(circuit: &Circuit, levels: &[u8], net: usize) -> u8
    ensures { result ≡ level_of_end circuit.now levels.now net }
{
    if is_plain(circuit, net) {
        amount_at(levels, net)
    } else {
        circuit.source_level()
    }
}

/// The amount at a net that is not plain.
fn given_amount(spread: Spread, circuit: &Circuit, known: &[Option<bool>], net: usize) -> u8
    ensures { result ≡ given_amount spread circuit.now known.now net }
{
    match spread {
        Spread::Joined => 0,
        Spread::Strength => circuit.source_level(),
        Spread::Value(value) => match known_bit(known, net) {
            Some(bit) => { if bit == value { 1 } else { 0 } }
            None => 0,
        },
    }
}

/// What passes over a device from one net to another. A value passes where the lesser of the one net's level and the
/// device's is the level of the other: else a stronger signal blocks it there.
fn passed(over: Spreading<'_>, amount: u8, from: usize, device: &Device, to: usize) -> u8
    ensures { result ≡ passed over.entry.spread over.entry.circuit.now over.entry.levels.now amount from device.now to }
{
    match over.spread {
        Spread::Joined => amount,
        Spread::Strength => amount.min(device.level),
        Spread::Value(_) => {
            let through = level_at(over.circuit, over.levels, from).min(device.level);
            if through == level_at(over.circuit, over.levels, to) {
                amount
            } else {
                0
            }
        }
    }
}

/// The net at the other end of a device of the bare circuit that is known to conduct, if it has the net at one end.
fn end_over(known: &[Option<bool>], device: &Device, net: usize) -> Option<usize>
    ensures { IsEndOver known.now device.now net result }
{
    if device.keeper {
        return None;
    }
    let Some(on) = conduction(known, device) else {
        return None;
    };
    if !on {
        return None;
    }
    other_end(device, net)
}

/// Passes an amount of a plain net over a device to the net at its other end, or takes what comes from there where that
/// net is not plain.
fn cross(
    over: Spreading<'_>,
    device: &Device,
    net: usize,
    other: usize,
    amount: u8,
    amounts: &mut Amounts,
) -> Result<(), NoMemory>
    requires there { Among over.circuit.now.devices device.now }
    requires bare { is_in true device.now ≡ true }
    requires on { conduction_of over.known.now device.now ≡ Some true }
    requires joins { Joins device.now net other }
    requires plain { is_plain_at over.circuit.now net ≡ true }
    requires size { length amounts.old.table.items ≡ length over.circuit.now.nets }
    ensures gone { OnOk result (Goes over.entry amount net amounts.old amounts.new) }
    ensures crossed { OnOk result (HasCrossed over.entry.spread over.entry.circuit.now over.entry.known.now over.entry.levels.now amounts.new.table.items amount net device.now other) }
{
    if is_plain(over.circuit, other) {
        let forth = passed(over, amount, net, device, other);
        amounts.raise(other, forth)
    } else {
        let given = given_amount(over.spread, over.circuit, over.known, other);
        let back = passed(over, given, other, device, net);
        amounts.raise(net, back)
    }
}

/// Passes an amount of a plain net over a device, where this is known to conduct.
fn pass_over(
    over: Spreading<'_>,
    device: &Device,
    net: usize,
    amount: u8,
    amounts: &mut Amounts,
) -> Result<(), NoMemory>
    requires there { Among over.circuit.now.devices device.now }
    requires plain { is_plain_at over.circuit.now net ≡ true }
    requires size { length amounts.old.table.items ≡ length over.circuit.now.nets }
    ensures gone { OnOk result (Goes over.entry amount net amounts.old amounts.new) }
    ensures passed { OnOk result (PassesOver over.entry amounts.new amount net device.now) }
{
    match end_over(over.known, device, net) {
        Some(other) => cross(over, device, net, other, amount, amounts),
        None => Ok(()),
    }
}

/// Passes an amount of a plain net over the device of a number.
fn pass_over_number(
    over: Spreading<'_>,
    number: usize,
    net: usize,
    amount: u8,
    amounts: &mut Amounts,
) -> Result<(), NoMemory>
    requires plain { is_plain_at over.circuit.now net ≡ true }
    requires size { length amounts.old.table.items ≡ length over.circuit.now.nets }
    ensures gone { OnOk result (Goes over.entry amount net amounts.old amounts.new) }
    ensures passed { OnOk result ((d : DeviceValue) → At over.entry.circuit.now.devices number d → PassesOver over.entry amounts.new amount net d) }
{
    match over.circuit.devices.get(number) {
        Some(device) => pass_over(over, device, net, amount, amounts),
        None => Ok(()),
    }
}

/// Passes an amount of a plain net over the devices of these numbers.
fn pass_over_numbers(
    over: Spreading<'_>,
    numbers: &[u32],
    net: usize,
    amount: u8,
    amounts: &mut Amounts,
) -> Result<(), NoMemory>
    requires plain { is_plain_at over.circuit.now net ≡ true }
    requires size { length amounts.old.table.items ≡ length over.circuit.now.nets }
    ensures gone { OnOk result (Goes over.entry amount net amounts.old amounts.new) }
    ensures passed { OnOk result (PassesFirst over.entry amounts.new amount net numbers.now (length numbers.now)) }
{
    for number in numbers {
        pass_over_number(over, *number as usize, net, amount, amounts)?;
    }
    Ok(())
}

/// The numbers of the devices at a net.
fn numbers_at(ends: &[Seq<u32>], net: usize) -> &[u32]
    ensures { result.now ≡ sources_at ends.now net }
{
    if net < ends.len() {
        ends[net].as_slice()
    } else {
        &[]
    }
}

/// Passes the amount of a plain net on over all devices that are known to conduct.
fn pass_on(over: Spreading<'_>, net: usize, amounts: &mut Amounts) -> Result<(), NoMemory>
    requires by { IsIncidence over.circuit.now over.by.now }
    requires plain { is_plain_at over.circuit.now net ≡ true }
    requires size { length amounts.old.table.items ≡ length over.circuit.now.nets }
    ensures gone { OnOk result (Goes over.entry (slice_index amounts.old.table.items net) net amounts.old amounts.new) }
    ensures passed { OnOk result (PassesAll over.entry amounts.new (slice_index amounts.old.table.items net) net) }
{
    let amount = amounts.at(net);
    let numbers = numbers_at(over.by.ends.as_slice(), net);
    pass_over_numbers(over, numbers, net, amount, amounts)
}

/// The net at a place of a list.
fn net_at(met: &[usize], at: usize) -> usize
    requires { at < length met.now }
    ensures { slice_get met.now at ≡ Some result }
{
    met[at]
}

/// Lets amounts spread from the nets that were met until nothing changes. A net is met again each time that its amount
/// rises.
pub(crate) fn spread_from(over: Spreading<'_>, amounts: &mut Amounts) -> Result<(), NoMemory>
    requires by { IsIncidence over.circuit.now over.by.now }
    requires size { length amounts.old.table.items ≡ length over.circuit.now.nets }
    requires plain { ArePlain over.circuit.now amounts.old.met.items }
    ensures { OnOk result (HasSpread over.entry amounts.old amounts.new) }
{
    let mut at = 0;
    'on: while at < amounts.met.len() {
        let net = net_at(amounts.met.as_slice(), at);
        pass_on(over, net, amounts)?;
        at += 1;
    }
    Ok(())
}
