//! What is known of nets and devices before anything is solved: which nets are plain or inputs, the bit of a net, and
//! whether a device conducts.

ghost use Rattle.std.specs.Prelude.{◌≡◌};
ghost use Rattle.known_nets.specs.Conduction.{conduction_of, is_input_at, is_input_kind, is_plain_at, is_plain_kind};
ghost use Rattle.known_nets.specs.KnownTables.{known_at};
ghost use Rattle.vrt_model.specs.Reading.{conducts_at};

use vrt_model::{Circuit, Device, FlatNet, Kind, NetKind};

/// Whether a net is plain.
fn is_plain_net(net: &FlatNet) -> bool
    ensures { result ≡ is_plain_kind net.now.kind }
{
    match net.kind {
        NetKind::Plain => true,
        _ => false,
    }
}

/// Whether a net is there and plain.
pub fn is_plain(circuit: &Circuit, net: usize) -> bool
    ensures { result ≡ is_plain_at circuit.now net }
{
    match circuit.nets.get(net) {
        Some(net) => is_plain_net(net),
        None => false,
    }
}

/// Whether a net is an input.
fn is_input_net(net: &FlatNet) -> bool
    ensures { result ≡ is_input_kind net.now.kind }
{
    match net.kind {
        NetKind::Input => true,
        _ => false,
    }
}

/// Whether a net is there and an input.
pub fn is_input(circuit: &Circuit, net: usize) -> bool
    ensures { result ≡ is_input_at circuit.now net }
{
    match circuit.nets.get(net) {
        Some(net) => is_input_net(net),
        None => false,
    }
}

/// The bit that is known of a net, if any.
pub fn known_bit(known: &[Option<bool>], net: usize) -> Option<bool>
    ensures { result ≡ known_at known.now net }
{
    match known.get(net) {
        Some(bit) => *bit,
        None => None,
    }
}

/// Whether a device conducts at a bit of its gate.
fn conducts(kind: Kind, gate: bool) -> bool
    ensures { result ≡ conducts_at kind gate }
{
    match kind {
        Kind::N => gate,
        Kind::P => !gate,
    }
}

/// Whether a device conducts, where its gate is known.
pub fn conduction(known: &[Option<bool>], device: &Device) -> Option<bool>
    ensures { result ≡ conduction_of known.now device.now }
{
    match known_bit(known, device.gate.0 as usize) {
        Some(gate) => Some(conducts(device.kind, gate)),
        None => None,
    }
}
