//! The links of an instance that is left whole, from those of the ports of its cell.

ghost use Rattle.std.specs.Prelude.{◌≡◌, ◌++◌, [], IfOk, OnOk, filter_map, flat_map};
ghost use Rattle.std.specs.List.{cons_option, enumerate_from};
ghost use Rattle.whole_circuits.specs.Links.{ArePhaseLinks, link_to, links_over, over_of, signal_at};
ghost use Rattle.whole_circuits.specs.Pins.{IsAtPorts};
ghost use Rattle.vrt_model.specs.Comparison.{Comparison};
ghost use Rattle.vrt_model.specs.Unrolled.{Place as FlatPlace};
ghost use Rattle.vrt_model.specs.WholeInstances.{HasLinks, pins_of};

use crate::owners::one_more;
use known_nets::short_number;
use phase_ports::{Port, output_signal};
use port_links::PortLink;
use std::alloc::Global;
use vrt_model::{Link, Net, NoMemory, Phase, Seq, Text, WholePin};

/// From where links lead, and to which outputs.
#[derive(Clone, Copy)]
pub struct Over {
    /// The net at the port from which they lead.
    pub from: Net,
    /// The signal of the outputs to which they lead.
    pub signal: u32,
    /// Whether a constraint of the cell names the port.
    pub named: bool,
}

/// The signal of the port at a place, if it is an output.
fn signal_at(ports: &[Port], place: usize) -> Option<u32>
    ensures { result ≡ signal_at ports.now place }
{
    match ports.get(place) {
        Some(port) => output_signal(port.role),
        None => None,
    }
}

/// From where the links over a link of two ports lead, and to which outputs.
fn over_of(ports: &[Port], nets: &[Net], link: PortLink) -> Option<Over>
    ensures { result ≡ over_of ports.now nets.now link }
{
    match signal_at(ports, link.to as usize) {
        Some(signal) => match nets.get(link.from as usize) {
            Some(from) => Some(Over {
                from: *from,
                signal,
                named: link.named,
            }),
            None => None,
        },
        None => None,
    }
}

/// The link to an output pin at a place, if it has the signal.
fn link_to(
    alloc: Global,
    phase: &Text,
    over: Over,
    at: usize,
    pin: WholePin,
) -> Result<Option<Link>, NoMemory>
    ensures { IfOk result (λ link. link ≡ link_to phase.now over (at, pin)) }
{
    if pin.signal != over.signal {
        return Ok(None);
    }
    let name = Text::from_bytes(alloc, phase.as_bytes())?;
    let output = short_number(at)?;
    Ok(Some(Link {
        phase: name,
        from: over.from,
        output,
        named: over.named,
    }))
}

/// Adds a link, if there is one.
fn add_link(links: &mut Seq<Link>, link: Option<Link>) -> Result<(), NoMemory>
    ensures { OnOk result (links.new ≡ links.old ++ cons_option link []) }
{
    let Some(link) = link else {
        return Ok(());
    };
    links.append(link)
}

/// Adds the links to those of the output pins that have the signal.
#[tactic(auto, using(crate::proofs::PinLaws::pushed))]
fn add_to_pins(
    alloc: Global,
    phase: &Text,
    over: Over,
    outputs: &[WholePin],
    links: &mut Seq<Link>,
) -> Result<(), NoMemory>
    ensures { OnOk result (links.new ≡ links.old ++ filter_map (link_to phase.now over) (enumerate_from 0 outputs.now)) }
{
    let mut at = 0;
    let mut rest = outputs;
    'pins: while let Some((pin, behind)) = rest.split_first() {
        let link = link_to(alloc, phase, over, at, *pin)?;
        add_link(links, link)?;
        at = one_more(at)?;
        rest = behind;
    }
    Ok(())
}

/// Adds the links over a link of two ports of the cell.
fn add_over(
    alloc: Global,
    phase: &Text,
    ports: &[Port],
    nets: &[Net],
    outputs: &[WholePin],
    link: PortLink,
    links: &mut Seq<Link>,
) -> Result<(), NoMemory>
    ensures { OnOk result (links.new ≡ links.old ++ links_over phase.now ports.now nets.now outputs.now link) }
{
    match over_of(ports, nets, link) {
        Some(over) => add_to_pins(alloc, phase, over, outputs, links),
        None => Ok(()),
    }
}

/// Adds the links over those of the ports of the cell in a phase.
fn add_phase(
    alloc: Global,
    phase: &Text,
    ports: &[Port],
    nets: &[Net],
    outputs: &[WholePin],
    own: &[PortLink],
    links: &mut Seq<Link>,
) -> Result<(), NoMemory>
    ensures { OnOk result (links.new ≡ links.old ++ flat_map (links_over phase.now ports.now nets.now outputs.now) own.now) }
{
    let mut rest = own;
    'links: while let Some((link, behind)) = rest.split_first() {
        add_over(alloc, phase, ports, nets, outputs, *link, links)?;
        rest = behind;
    }
    Ok(())
}

/// The links of an instance of a cell: phase by phase those of the ports of the cell, from the nets to which the instance
/// ties them to its output pins. An output has a link for each pin with its signal.
pub fn whole_links(
    alloc: Global,
    phases: &[Phase],
    ports: &[Port],
    nets: &[Net],
    outputs: &[WholePin],
    own: &[Seq<PortLink>],
) -> Result<Seq<Link>, NoMemory>
    ensures { IfOk result (λ links. (k : Comparison) (at : FlatPlace) → k.rules.phases ≡ phases.now → IsAtPorts k at ports.now nets.now → ArePhaseLinks k own.now → HasLinks k (pins_of k at) outputs.now links) }
{
    let mut links = Seq::new(alloc);
    let mut phases_left = phases;
    let mut own_left = own;
    'phases: while let (Some((phase, phases)), Some((own, later))) = (
        phases_left.split_first(),
        own_left.split_first(),
    ) {
        add_phase(
            alloc,
            &phase.name,
            ports,
            nets,
            outputs,
            own.as_slice(),
            &mut links,
        )?;
        phases_left = phases;
        own_left = later;
    }
    Ok(links)
}
