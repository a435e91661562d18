//! The nets of the ports of a cell.

ghost use Rattle.std.specs.Prelude.{◌≡◌, ◌<◌, All};
ghost use Rattle.phase_ports.specs.Ports.{net_by, next_by, supply_bit};
ghost use Rattle.phase_told.specs.Nets.{net_at, nets_by};
ghost use Rattle.vrt_model.specs.Limits.{most_nets};

use vrt_model::PortRole;

/// The bit of a supply.
fn supply_bit(role: PortRole) -> Option<bool>
    ensures { result ≡ supply_bit role }
{
    match role {
        PortRole::Supply(value) => Some(value),
        PortRole::Clock(_) => None,
        PortRole::Input(_) => None,
        PortRole::Output(_) => None,
    }
}

/// The net of a port, where `next` is the number of the next port that is no supply.
fn net_by(supply: Option<bool>, next: u32) -> u32
    ensures { result ≡ net_by supply next }
{
    match supply {
        Some(true) => 1,
        Some(false) => 0,
        None => next,
    }
}

/// The number for the ports behind one.
fn next_by(supply: Option<bool>, next: u32) -> u32
    requires { net_by supply next < most_nets }
    ensures { result ≡ next_by supply next }
{
    match supply {
        Some(_) => next,
        None => next + 1,
    }
}

/// The net of the port at a place, of ports with these roles. A supply has net 0 or 1, and the others have the numbers from 2 on in
/// their order. Where there is no port, 0.
pub(crate) fn net_of_port(roles: &[PortRole], place: u32) -> u32
    requires { All (λ net. net < most_nets) (nets_by 2 roles.now) }
    ensures { result ≡ net_at 2 roles.now place }
{
    let mut next = 2;
    let mut left = place;
    let mut rest = roles;
    'ports: while let Some((role, behind)) = rest.split_first() {
        let supply = supply_bit(*role);
        if left == 0 {
            return net_by(supply, next);
        }
        next = next_by(supply, next);
        left -= 1;
        rest = behind;
    }
    0
}
