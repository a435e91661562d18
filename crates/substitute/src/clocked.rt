//! Cells whose ports carry clocks.

ghost use Rattle.std.specs.Prelude.{◌≡◌};
ghost use Rattle.std.specs.List.{list_any};
ghost use Rattle.phase_ports.specs.declared.port_list.Port.{Port as PortValue};
ghost use Rattle.substitute.specs.Clocked.{carries_clock, is_clocked, is_clocked_at};

use net_places::Place;
use phase_ports::Port;
use vrt_model::PortRole;
use whole_circuits::WholeCell;

/// Whether a port of this role carries a clock.
fn carries_clock(role: PortRole) -> bool
    ensures { result ≡ carries_clock role }
{
    match role {
        PortRole::Clock(_) => true,
        PortRole::Supply(_) => false,
        PortRole::Input(_) => false,
        PortRole::Output(_) => false,
    }
}

/// Whether some port carries a clock.
fn has_clock(ports: &[Port]) -> bool
    ensures { result ≡ list_any (λ (port : PortValue). carries_clock port.role) ports.now }
{
    let mut rest = ports;
    'ports: while let Some((port, behind)) = rest.split_first() {
        if carries_clock(port.role) {
            return true;
        }
        rest = behind;
    }
    false
}

/// Whether a cell whose instances may be left whole has a port that carries a clock.
fn is_clocked(cell: &Option<WholeCell>) -> bool
    ensures { result ≡ is_clocked cell.now }
{
    match cell {
        Some(own) => has_clock(own.ports.as_slice()),
        None => false,
    }
}

/// Whether the cell at a place is one whose instances may be left whole, with a port that carries a clock.
fn is_clocked_at(cells: &[Option<WholeCell>], place: &Place) -> bool
    ensures { result ≡ is_clocked_at cells.now place.now }
{
    match cells.get(place.cell) {
        Some(cell) => is_clocked(cell),
        None => false,
    }
}

/// Whether some place is of a cell whose instances may be left whole and that has a port that carries a clock.
pub(crate) fn has_clocked_cell(places: &[Place], cells: &[Option<WholeCell>]) -> bool
    ensures { result ≡ list_any (is_clocked_at cells.now) places.now }
{
    let mut rest = places;
    'places: while let Some((place, behind)) = rest.split_first() {
        if is_clocked_at(cells, place) {
            return true;
        }
        rest = behind;
    }
    false
}
