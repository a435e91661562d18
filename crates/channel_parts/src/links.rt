//! Links of whole instances: in which phase they stand, whether they count for ranks, and to which parts they lead.

ghost use Rattle.std.specs.Prelude.{◌≡◌, ◌&&◌, bytes_eq, length};
ghost use Rattle.channel_parts.specs.Links.{is_counted, link_target};
ghost use Rattle.vrt_model.specs.Circuits.{IsWhole};

use crate::grouping::net_owner;
use known_nets::known_bit;
use vrt_model::{Circuit, Link, Phase, Whole};

/// Whether a link stands in a phase.
pub(crate) fn stands(phase: &Phase, link: &Link) -> bool
    ensures { result ≡ bytes_eq link.now.phase phase.now.name }
{
    link.phase.as_bytes() == phase.name.as_bytes()
}

/// Whether a link counts for ranks where it stands: it is from a named port, or from a net that is not known.
fn is_counted(known: &[Option<bool>], link: &Link) -> bool
    ensures { result ≡ is_counted known.now link.now }
{
    link.named || known_bit(known, link.from.0 as usize).is_none()
}

/// Whether a link counts for ranks in a phase.
pub(crate) fn counts(phase: &Phase, known: &[Option<bool>], link: &Link) -> bool
    ensures { result ≡ (bytes_eq link.now.phase phase.now.name && is_counted known.now link.now) }
{
    stands(phase, link) && is_counted(known, link)
}

/// The least net of the part of the output to which a link leads.
pub(crate) fn link_target(
    circuit: &Circuit,
    least: &[usize],
    whole: &Whole,
    link: &Link,
) -> Option<usize>
    requires whole { IsWhole circuit.now whole.now }
    requires nets { length least.now ≡ length circuit.now.nets }
    ensures { result ≡ link_target circuit.now least.now whole.now link.now }
{
    match whole.outputs.get(link.output as usize) {
        Some(pin) => net_owner(circuit, least, pin.net.0 as usize),
        None => None,
    }
}
