//! Input ports that are named to rise.

ghost use Rattle.std.specs.Prelude.{◌≡◌, ◌∷◌, ◌++◌, [], IfErr, IfOk, OnOk, is_some};
ghost use Rattle.arrival_lines.specs.RisingNames.{AddsPlace, ArePlaced, PlaceGives, PlacesGive, fault_from, input_from};
ghost use Rattle.mode_lines.specs.Lists.{Tells};
ghost use Rattle.vrt_model.specs.Comparison.{input_signal};

use mode_lines::{AtFault, has_name, no_such_name, twice};
use phase_ports::input_signal;
use std::alloc::Global;
use vrt_model::{PortRole, Seq, Text};

/// The ports of a cell.
#[derive(Clone, Copy)]
pub(crate) struct CellPorts<'a> {
    /// Their names, in the order of the cell.
    pub names: &'a [Text],
    /// Their roles, in the same order.
    pub roles: &'a [PortRole],
}

/// Whether a port is an input.
fn is_input(role: PortRole) -> bool
    ensures { result ≡ is_some (input_signal role) }
{
    input_signal(role).is_some()
}

/// The place of the first input port of a name.
fn input_place(ports: CellPorts<'_>, name: &[u8]) -> Option<usize>
    ensures { result ≡ input_from 0 ports.entry.names.now ports.entry.roles.now name.now }
{
    let mut at = 0;
    let mut names_left = ports.names;
    let mut roles_left = ports.roles;
    'ports: while let (Some((own, names)), Some((role, roles))) = (
        names_left.split_first(),
        roles_left.split_first(),
    ) {
        if own.as_bytes() == name && is_input(*role) {
            return Some(at);
        }
        at += 1;
        names_left = names;
        roles_left = roles;
    }
    None
}

/// The place of the input port of a name behind others, or why it has none.
fn place_of(
    alloc: Global,
    ports: CellPorts<'_>,
    before: &[Text],
    name: &[u8],
) -> Result<u32, AtFault>
    ensures { PlaceGives (input_from 0 ports.entry.names.now ports.entry.roles.now name.now) before.now name.now result }
{
    let Some(place) = input_place(ports, name) else {
        return Err(no_such_name(alloc, name));
    };
    if has_name(before, name) {
        return Err(twice(alloc, name));
    }
    match u32::try_from(place) {
        Ok(place) => Ok(place),
        Err(_) => Err(AtFault::NoMemory),
    }
}

/// Adds a place.
fn add(places: &mut Seq<u32>, place: u32) -> Result<(), AtFault>
    ensures ok { OnOk result (places.new ≡ places.old ++ place ∷ []) }
    ensures err { IfErr result (λ fault. fault ≡ AtFault.NoMemory) }
{
    match places.append(place) {
        Ok(()) => Ok(()),
        Err(_) => Err(AtFault::NoMemory),
    }
}

/// Adds the place of the input port of one more name.
fn add_place(
    alloc: Global,
    ports: CellPorts<'_>,
    before: &[Text],
    name: &[u8],
    places: &mut Seq<u32>,
) -> Result<(), AtFault>
    ensures { AddsPlace (input_from 0 ports.entry.names.now ports.entry.roles.now name.now) before.now name.now places.old places.new result }
{
    match place_of(alloc, ports, before, name) {
        Ok(place) => add(places, place),
        Err(fault) => Err(fault),
    }
}

/// Adds the places of the input ports of names, up to the first name that has a fault.
fn add_places(
    alloc: Global,
    ports: CellPorts<'_>,
    names: &[Text],
    places: &mut Seq<u32>,
) -> Result<(), AtFault>
    requires { places.old ≡ [] }
    ensures { PlacesGive (input_from 0 ports.entry.names.now ports.entry.roles.now) names.now places.new result }
{
    for at in 0..names.len() {
        match add_place(alloc, ports, &names[..at], names[at].as_bytes(), places) {
            Ok(()) => {}
            Err(fault) => return Err(fault),
        }
    }
    Ok(())
}

/// The places of the input ports of names, or the first fault: no input port has the name, or the name stands before.
pub(crate) fn places_of(
    alloc: Global,
    ports: CellPorts<'_>,
    names: &[Text],
) -> Result<Seq<u32>, AtFault>
    ensures ok { IfOk result (ArePlaced (input_from 0 ports.entry.names.now ports.entry.roles.now) names.now) }
    ensures err { IfErr result (Tells (fault_from (input_from 0 ports.entry.names.now ports.entry.roles.now) [] names.now)) }
{
    let mut places = Seq::new(alloc);
    match add_places(alloc, ports, names, &mut places) {
        Ok(()) => Ok(places),
        Err(fault) => Err(fault),
    }
}
