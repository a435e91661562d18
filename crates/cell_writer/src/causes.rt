//! What is tested before anything is made.

ghost use Rattle.std.specs.Prelude.{◌≡◌, ◌<◌, length};
ghost use Rattle.std.specs.Option.{option_copied};
ghost use Rattle.cell_writer.specs.Refused.{clock_among, first_hold, is_clock};
ghost use Rattle.vrt_model.specs.Circuits.{IsCircuit};
ghost use Rattle.vrt_model.specs.Comparison.{net_name};

use vrt_model::{Circuit, Net, PortRole, Text};

/// The name of a net.
fn name_of(circuit: &Circuit, net: Net) -> &Text
    requires { net.0 < length circuit.now.nets }
    ensures { result.now ≡ net_name circuit.entry.now net.0 }
{
    &circuit.nets.as_slice()[net.0 as usize].name
}

/// The net of the first hold of a circuit.
pub fn held_net(circuit: &Circuit) -> Option<&Text>
    requires { IsCircuit circuit.now }
    ensures { option_copied result ≡ first_hold circuit.entry.now }
{
    match circuit.holds.get(0) {
        Some(hold) => Some(name_of(circuit, hold.net)),
        None => None,
    }
}

/// Whether a port carries a clock.
fn is_clock(role: PortRole) -> bool
    ensures { result ≡ is_clock role }
{
    match role {
        PortRole::Supply(_) => false,
        PortRole::Clock(_) => true,
        PortRole::Input(_) => false,
        PortRole::Output(_) => false,
    }
}

/// The first of some ports that carries a clock, where they have these roles.
pub fn clock_port<'a>(names: &'a [Text], roles: &[PortRole]) -> Option<&'a Text>
    ensures { option_copied result ≡ clock_among names.entry.now roles.now }
{
    let mut names_left = names;
    let mut roles_left = roles;
    'ports: while let (Some((name, names_behind)), Some((role, roles_behind))) = (
        names_left.split_first(),
        roles_left.split_first(),
    ) {
        if is_clock(*role) {
            return Some(name);
        }
        names_left = names_behind;
        roles_left = roles_behind;
    }
    None
}
