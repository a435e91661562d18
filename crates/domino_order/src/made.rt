//! What is made before the ports are searched: the nets that rise, and how many words a run has.

ghost use Rattle.std.specs.Prelude.{◌≡◌, ℕ, ◌+◌, ◌<◌, All, length, map, option_map, slice_get, sum_by, unwrap_or, IfOk};
ghost use Rattle.std.specs.List.{range_with_len};
ghost use Rattle.domino_order.specs.Arrivals.{AreRising, nets_of_ports};
ghost use Rattle.domino_order.specs.Made.{latch_elements};
ghost use Rattle.phase_open.specs.Given.{variable_at};
ghost use Rattle.phase_ports.specs.declared.port_list.Port.{Port as PortValue};
ghost use Rattle.phase_terms.specs.Ready.{IsReady, comparison_in};
ghost use Rattle.phase_terms.specs.Stores.{counts_of};
ghost use Rattle.vrt_model.specs.Circuits.{IsFlat};
ghost use Rattle.vrt_model.specs.Elements.{element_count};
ghost use Rattle.vrt_model.specs.Variables.{is_input};

use phase_ports::{Port, ports_by};
use phase_terms::{Comparison, WordCounts};
use std::alloc::Global;
use vrt_model::{Circuit, FlatLatch, LatchKind, NetKind, NoMemory, Seq};

/// The net of the port at a place; 0 where there is no port.
fn net_of(ports: &[Port], place: u32) -> u32
    ensures { result ≡ unwrap_or (option_map (λ (p : PortValue). p.net) (slice_get ports.now place)) 0 }
{
    match ports.get(place as usize) {
        Some(port) => port.net,
        None => 0,
    }
}

/// The nets of the ports at these places.
pub(crate) fn rising_nets(
    alloc: Global,
    compared: Comparison<'_>,
    rising: &[u32],
) -> Result<Seq<u32>, NoMemory>
    requires ready { IsReady (comparison_in compared) }
    requires rising { AreRising (comparison_in compared) rising.now }
    ensures { IfOk result (λ nets. nets ≡ nets_of_ports (comparison_in compared.entry) rising.now) }
{
    let ports = ports_by(alloc, compared.pairing.ports.as_slice())?;
    let mut nets = Seq::new(alloc);
    for place in rising {
        nets.append(net_of(ports.as_slice(), *place))?;
    }
    Ok(nets)
}

/// How many elements a latch has: a triggered one has two.
fn element_count(kind: LatchKind) -> u32
    ensures { result ≡ element_count kind }
{
    match kind {
        LatchKind::Re => 2,
        LatchKind::Fe => 2,
        LatchKind::Ah => 1,
        LatchKind::Al => 1,
    }
}

/// The sum of two numbers.
pub(crate) fn sum(count: u32, other: u32) -> Result<u32, NoMemory>
    ensures { IfOk result (λ all. all ≡ count + other) }
{
    match count.checked_add(other) {
        Some(all) => Ok(all),
        None => Err(NoMemory),
    }
}

/// A number of items as a number of 32 bits.
pub(crate) fn small(count: usize) -> Result<u32, NoMemory>
    ensures { IfOk result (λ same. same ≡ count) }
{
    match u32::try_from(count) {
        Ok(same) => Ok(same),
        Err(_) => Err(NoMemory),
    }
}

/// How many elements some latches have.
fn elements_of(latches: &[FlatLatch]) -> Result<u32, NoMemory>
    ensures { IfOk result (λ count. count ≡ latch_elements latches.now) }
{
    let mut count = 0;
    let mut rest = latches;
    'latches: while let Some((latch, behind)) = rest.split_first() {
        count = sum(count, element_count(latch.kind))?;
        rest = behind;
    }
    Ok(count)
}

/// The words of a phase of a comparison without whole instances, in a store with so many variables.
pub(crate) fn run_counts(compared: Comparison<'_>, variables: u32) -> Result<WordCounts, NoMemory>
    requires ready { IsReady (comparison_in compared) }
    requires flat { IsFlat compared.circuit.now }
    ensures { IfOk result (λ counts. counts ≡ counts_of (comparison_in compared.entry) variables) }
{
    let elements = elements_of(compared.model.latches.as_slice())?;
    Ok(WordCounts {
        nets: compared.circuit.nets.len() as u32,
        source: compared.circuit.source_level(),
        pins: 0,
        models: 0,
        signals: compared.model.signals.len() as u32,
        elements,
        variables,
    })
}

/// The numbers below one, in their order.
pub(crate) fn numbers(alloc: Global, count: u32) -> Result<Seq<u32>, NoMemory>
    ensures { IfOk result (λ all. all ≡ range_with_len 0 count) }
{
    let mut all = Seq::new(alloc);
    for x in 0..count {
        all.append(x)?;
    }
    Ok(all)
}

/// Whether a net is an input.
fn is_input(kind: NetKind) -> bool
    ensures { result ≡ is_input kind }
{
    match kind {
        NetKind::Input => true,
        NetKind::Supply(_) => false,
        NetKind::Clock(_) => false,
        NetKind::Plain => false,
    }
}

/// The variable of an input net: how many input nets stand before it.
fn variable_of(circuit: &Circuit, net: u32) -> Result<u32, NoMemory>
    requires { net < length circuit.now.nets }
    ensures { IfOk result (λ variable. variable ≡ variable_at circuit.now net) }
{
    let nets = circuit.nets.as_slice();
    let mut before = 0;
    for n in 0..net as usize {
        before = sum(before, u32::from(is_input(nets[n].kind)))?;
    }
    Ok(before)
}

/// The variables of some input nets.
pub(crate) fn variables_of(
    alloc: Global,
    circuit: &Circuit,
    nets: &[u32],
) -> Result<Seq<u32>, NoMemory>
    requires { All (λ (n : ℕ). n < length circuit.now.nets) nets.now }
    ensures { IfOk result (λ variables. variables ≡ map (variable_at circuit.now) nets.now) }
{
    let mut variables = Seq::new(alloc);
    for net in nets {
        variables.append(variable_of(circuit, *net)?)?;
    }
    Ok(variables)
}
