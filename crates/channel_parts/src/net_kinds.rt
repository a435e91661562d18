//! What nets are: supplies, and plain nets with holds.

ghost use Rattle.std.specs.Prelude.{◌≡◌};
ghost use Rattle.channel_parts.specs.ClassTests.{is_stored, is_supply_kind, kind_at};

use known_nets::{is_marked, is_plain};
use vrt_model::{Circuit, NetKind};

/// Whether a kind of nets is that of supplies of this value.
fn is_supply_kind(kind: NetKind, value: bool) -> bool
    ensures { result ≡ is_supply_kind value kind }
{
    match kind {
        NetKind::Supply(own) => { if value { own } else { !own } }
        _ => false,
    }
}

/// Whether a net is there and a supply of this value.
pub(crate) fn is_supply(circuit: &Circuit, net: usize, value: bool) -> bool
    ensures { result ≡ kind_at (is_supply_kind value) circuit.now net }
{
    match circuit.nets.get(net) {
        Some(net) => is_supply_kind(net.kind, value),
        None => false,
    }
}

/// Whether a net is plain and has a hold.
pub(crate) fn is_stored(circuit: &Circuit, held: &[bool], net: usize) -> bool
    ensures { result ≡ is_stored circuit.now held.now net }
{
    is_plain(circuit, net) && is_marked(held, net)
}
