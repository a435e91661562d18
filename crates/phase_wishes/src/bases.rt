//! What the holds of a group ought to have, but for the polarity of each.

ghost use Rattle.std.specs.Prelude.{◌≡◌, slice_get};
ghost use Rattle.phase_wishes.specs.Held.{base_of, element_of, kind_of, least_by, least_of, with_polarity};

use crate::wishes::Wanted;
use vrt_model::{Circuit, FaultKind, Group, Member};

/// Which groups are looked at.
#[derive(Clone, Copy)]
pub(crate) enum Stored {
    /// Those that reach a latch element: their holds ought to have its new bit.
    Latches,
    /// The others: their holds ought to have the bit of their least net.
    Others,
}

/// The fault that stands where a hold of such a group does not have what it ought to.
pub(crate) fn kind_of(stored: Stored) -> FaultKind
    ensures { result ≡ kind_of stored }
{
    match stored {
        Stored::Latches => FaultKind::Next,
        Stored::Others => FaultKind::Apart,
    }
}

/// The bit at the end of a hold, by the bit of its net.
fn least_of(circuit: &Circuit, least: Member) -> Option<Wanted>
    ensures { result ≡ least_of circuit.now least }
{
    match circuit.holds.get(least.hold as usize) {
        Some(hold) => Some(Wanted::Other {
            net: hold.net,
            inverted: least.inverted,
        }),
        None => None,
    }
}

/// The new bit of the latch element that a group reaches.
fn of_latch(group: &Group) -> Option<Wanted>
    ensures { result ≡ element_of group.now.element }
{
    match group.element {
        Some(element) => Some(Wanted::Element {
            element,
            inverted: false,
        }),
        None => None,
    }
}

/// The bit of the least net of a group that reaches no latch element.
fn of_least(circuit: &Circuit, group: &Group) -> Option<Wanted>
    ensures { result ≡ least_by circuit.now group.now.element (slice_get group.now.members 0) }
{
    if group.element.is_some() {
        return None;
    }
    match group.members.get(0) {
        Some(least) => least_of(circuit, *least),
        None => None,
    }
}

/// What the holds of a group ought to have, where it is such a group.
pub(crate) fn base_of(circuit: &Circuit, stored: Stored, group: &Group) -> Option<Wanted>
    ensures { result ≡ base_of circuit.now stored group.now }
{
    match stored {
        Stored::Latches => of_latch(group),
        Stored::Others => of_least(circuit, group),
    }
}

/// A bit or its inverse.
pub(crate) fn with_polarity(base: Wanted, inverted: bool) -> Wanted
    ensures { result ≡ with_polarity base inverted }
{
    match base {
        Wanted::Signal(signal) => Wanted::Signal(signal),
        Wanted::Element {
            element,
            inverted: turned,
        } => Wanted::Element {
            element,
            inverted: inverted != turned,
        },
        Wanted::Other {
            net,
            inverted: turned,
        } => Wanted::Other {
            net,
            inverted: inverted != turned,
        },
        Wanted::Constant(value) => Wanted::Constant(inverted != value),
    }
}
