//! The handles of the ports that an expression names.

ghost use Rattle.std.specs.Prelude.{◌≡◌, ◌<◌, IfSome, option_and_then};
ghost use Rattle.bdd_core.specs.Store.{IsSpan};
ghost use Rattle.constraints.specs.Handles.{HasHandles, clock_in, handle_in, net_at, word_of};
ghost use Rattle.vrt_model.specs.Lists.{place_of};

use crate::given_ports::{GivenPorts, given_handle};
use bdd_core::{H, Store, ZERO};
use node_pool::Span;
use vrt_model::{ClockRef, Net, Text};

/// Ports by their names, and where their handles stand.
#[derive(Clone, Copy)]
pub(crate) enum Ports<'a> {
    /// Each at the place of its name.
    Listed {
        /// The names of the ports.
        names: &'a [Text],
        /// A handle for each name.
        values: Span,
    },
    /// Each at the net that is tied to it.
    Tied {
        /// The names of the ports.
        names: &'a [Text],
        /// The net of each port.
        nets: &'a [Net],
        /// A handle for each net of the circuit.
        values: Span,
    },
    /// Those of the checked cell: supplies and clock ports have constants, and inputs have the handles of their nets.
    Given(GivenPorts<'a>),
}

/// The place of a name.
fn place_of(names: &[Text], name: &[u8]) -> Option<usize>
    ensures { result ≡ place_of names.now name.now }
{
    names.iter().position(|other| name == other.as_bytes())
}

/// The net at a place.
fn net_at(nets: &[Net], at: usize) -> Option<usize>
    ensures { result ≡ net_at nets.now at }
{
    match nets.get(at) {
        Some(net) => Some(net.0 as usize),
        None => None,
    }
}

/// The net that is tied to a port.
fn tied_net(names: &[Text], nets: &[Net], name: &[u8]) -> Option<usize>
    ensures { result ≡ option_and_then (net_at nets.now) (place_of names.now name.now) }
{
    match place_of(names, name) {
        Some(at) => net_at(nets, at),
        None => None,
    }
}

/// The handle at a place, and the constant 0 where there is none.
fn handle_at(store: &Store, values: Span, place: Option<usize>) -> H
    requires live { IsSpan store.now values }
    requires within { IfSome place (λ k. k < values.len) }
    ensures { result.0 ≡ word_of store.now.words values place }
{
    match place {
        Some(at) => H(store.read(values, at as u32)),
        None => ZERO,
    }
}

/// The bit of a carried clock among the bits of a phase.
pub(crate) fn clock_in(bits: &[bool], clock: ClockRef) -> bool
    ensures { result ≡ clock_in bits.now clock }
{
    let bit = match bits.get(clock.clock as usize) {
        Some(bit) => *bit,
        None => false,
    };
    clock.inverted != bit
}

/// The handle of a port, and the constant 0 where there is no port of the name.
pub(crate) fn handle_of(store: &Store, ports: Ports<'_>, name: &[u8]) -> H
    requires { HasHandles store.now ports }
    ensures { result.0 ≡ handle_in store.now.words ports.entry name.now }
{
    match ports {
        Ports::Listed { names, values } => handle_at(store, values, place_of(names, name)),
        Ports::Tied {
            names,
            nets,
            values,
        } => handle_at(store, values, tied_net(names, nets, name)),
        Ports::Given(given) => given_handle(store, given, name),
    }
}
