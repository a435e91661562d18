//! The valuation of the variables of a phase that a list of names with bits gives.

ghost use Rattle.std.specs.Prelude.{◌≡◌, Some, cond, false, IfOk};
ghost use Rattle.mode_lines.specs.Lists.{AtGives, Checks, NamesNone, NamesTwice, bit_in, bits_at, fault_at, item_fault, names_of};
ghost use Rattle.vrt_model.specs.Lists.{has_name};

use crate::lists::AtItem;
use std::alloc::Global;
use vrt_model::{NoMemory, Seq, Text, Valuation};

/// Why names, of variables with bits or of ports, do not stand for what is asked.
#[derive(Drop)]
pub enum AtFault {
    /// No variable and no port that is asked for has this name: `no such name: NAME`.
    NoSuchName { name: Text },
    /// The name stands twice: `given twice: NAME`.
    Twice { name: Text },
    /// Memory could not be had.
    NoMemory,
}

/// Whether a name is among names.
pub fn has_name(names: &[Text], name: &[u8]) -> bool
    ensures { result ≡ has_name names.now name.now }
{
    for other in names {
        if name == other.as_bytes() {
            return true;
        }
    }
    false
}

/// Whether an item has a name.
fn has_item(items: &[AtItem], name: &[u8]) -> bool
    ensures { result ≡ has_name (names_of items.now) name.now }
{
    for item in items {
        if name == item.name.as_bytes() {
            return true;
        }
    }
    false
}

/// The fault that a name is none of those that may be given.
pub fn no_such_name(alloc: Global, name: &[u8]) -> AtFault
    ensures { NamesNone name.now result }
{
    match Text::from_bytes(alloc, name) {
        Ok(name) => AtFault::NoSuchName { name },
        Err(_) => AtFault::NoMemory,
    }
}

/// The fault that a name stands twice.
pub fn twice(alloc: Global, name: &[u8]) -> AtFault
    ensures { NamesTwice name.now result }
{
    match Text::from_bytes(alloc, name) {
        Ok(name) => AtFault::Twice { name },
        Err(_) => AtFault::NoMemory,
    }
}

/// Refuses the name of an item that is none of the variables' or stands among the items before.
fn check_item(alloc: Global, names: &[Text], before: &[AtItem], name: &[u8]) -> Result<(), AtFault>
    ensures { Checks (item_fault names.now (names_of before.now) name.now) result }
{
    if !has_name(names, name) {
        return Err(no_such_name(alloc, name));
    }
    if has_item(before, name) {
        return Err(twice(alloc, name));
    }
    Ok(())
}

/// Refuses the first item whose name is none of the variables' or stands before.
fn check_items(alloc: Global, names: &[Text], items: &[AtItem]) -> Result<(), AtFault>
    ensures { Checks (fault_at names.now items.now) result }
{
    for at in 0..items.len() {
        match check_item(alloc, names, &items[..at], items[at].name.as_bytes()) {
            Ok(()) => {}
            Err(fault) => return Err(fault),
        }
    }
    Ok(())
}

/// The bit that is given under a name, and 0 where none is.
fn bit_in(items: &[AtItem], name: &[u8]) -> bool
    ensures { result ≡ bit_in items.now name.now }
{
    for item in items {
        if name == item.name.as_bytes() {
            return item.bit;
        }
    }
    false
}

/// The bit of a variable behind others: of two with one name the first has what is given.
fn bit_of(items: &[AtItem], before: &[Text], name: &[u8]) -> bool
    ensures { result ≡ cond (has_name before.now name.now) false (bit_in items.now name.now) }
{
    if has_name(before, name) {
        false
    } else {
        bit_in(items, name)
    }
}

/// The bits of all variables.
fn bits_at(alloc: Global, names: &[Text], items: &[AtItem]) -> Result<Seq<bool>, NoMemory>
    ensures { IfOk result (λ bits. bits ≡ bits_at names.now items.now) }
{
    let mut bits = Seq::new(alloc);
    for at in 0..names.len() {
        let bit = bit_of(items, &names[..at], names[at].as_bytes());
        bits.append(bit)?;
    }
    Ok(bits)
}

/// The valuation of variables by their names: an item gives its bit to the first variable of its name, and variables without an
/// item are 0. The items are tested one by one: a name that is none of the variables' is refused, and then one that stood before.
pub fn valuation_at(
    alloc: Global,
    names: &Seq<Text>,
    items: &Seq<AtItem>,
) -> Result<Valuation, AtFault>
    ensures { AtGives names.now items.now result }
{
    let names = names.as_slice();
    let items = items.as_slice();
    match check_items(alloc, names, items) {
        Ok(()) => match bits_at(alloc, names, items) {
            Ok(bits) => Ok(Valuation { bits }),
            Err(_) => Err(AtFault::NoMemory),
        },
        Err(fault) => Err(fault),
    }
}
