//! The ports of a cell with their nets, by their roles.

ghost use Rattle.std.specs.Prelude.{◌≡◌, ◌+◌, ◌++◌, ◌∷◌, [], IfOk, OnOk};
ghost use Rattle.vrt_model.specs.Comparison.{input_signal, output_signal};
ghost use Rattle.phase_ports.specs.Ports.{net_by, next_by, ports_by, supply_bit};

use std::alloc::Global;
use vrt_model::{NoMemory, PortRole};

/// A port of a cell: its place among the ports, its net in the circuit, and its role.
#[derive(Clone, Copy)]
pub struct Port {
    /// The place of the port in `Cell.ports`, from 0.
    pub place: u32,
    /// The number of its net: 0 or 1 for a supply of that value, from 2 on for the others in their order.
    pub net: u32,
    /// Whether it is a supply, a clock, an input or an output, and of which signal.
    pub role: PortRole,
}

/// The bit of a supply.
fn supply_bit(role: PortRole) -> Option<bool>
    ensures { result ≡ supply_bit role }
{
    match role {
        PortRole::Supply(value) => Some(value),
        PortRole::Clock(_) => None,
        PortRole::Input(_) => None,
        PortRole::Output(_) => None,
    }
}

/// The signal of an input port.
pub fn input_signal(role: PortRole) -> Option<u32>
    ensures { result ≡ input_signal role }
{
    match role {
        PortRole::Supply(_) => None,
        PortRole::Clock(_) => None,
        PortRole::Input(signal) => Some(signal),
        PortRole::Output(_) => None,
    }
}

/// The signal of an output port.
pub fn output_signal(role: PortRole) -> Option<u32>
    ensures { result ≡ output_signal role }
{
    match role {
        PortRole::Supply(_) => None,
        PortRole::Clock(_) => None,
        PortRole::Input(_) => None,
        PortRole::Output(signal) => Some(signal),
    }
}

/// The net of a port, where `next` is the number of the next port that is no supply.
fn net_of(supply: Option<bool>, next: u32) -> u32
    ensures { result ≡ net_by supply next }
{
    match supply {
        Some(true) => 1,
        Some(false) => 0,
        None => next,
    }
}

/// The next number.
fn one_more(number: u32) -> Result<u32, NoMemory>
    ensures { IfOk result (λ next. next ≡ number + 1) }
{
    match number.checked_add(1) {
        Some(next) => Ok(next),
        None => Err(NoMemory),
    }
}

/// The number for the ports behind one.
fn next_of(supply: Option<bool>, next: u32) -> Result<u32, NoMemory>
    ensures { IfOk result (λ n. n ≡ next_by supply next) }
{
    match supply {
        Some(_) => Ok(next),
        None => one_more(next),
    }
}

/// Adds a port at the end.
fn add(ports: &mut Vec<Port>, port: Port) -> Result<(), NoMemory>
    ensures { OnOk result (ports.new.items ≡ ports.old.items ++ port ∷ []) }
{
    match ports.push(port) {
        Ok(()) => Ok(()),
        Err(_) => Err(NoMemory),
    }
}

/// The ports with these roles. A supply has net 0 or 1, and the others have the numbers from 2 on in their order.
pub fn ports_by(alloc: Global, roles: &[PortRole]) -> Result<Vec<Port>, NoMemory>
    ensures { IfOk result (λ ports. ports.items ≡ ports_by 0 2 roles.now) }
{
    let mut ports = Vec::new(alloc);
    let mut place = 0;
    let mut next = 2;
    let mut rest = roles;
    'roles: while let Some((role, behind)) = rest.split_first() {
        let supply = supply_bit(*role);
        let port = Port {
            place,
            net: net_of(supply, next),
            role: *role,
        };
        add(&mut ports, port)?;
        place = one_more(place)?;
        next = next_of(supply, next)?;
        rest = behind;
    }
    Ok(ports)
}
