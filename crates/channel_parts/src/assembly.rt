//! The channel-connected parts of a circuit with their devices, by rank.

ghost use Rattle.std.specs.Prelude.{◌≡◌, ℕ, ◌<◌, ◌++◌, ◌∷◌, [], Ok, Err, List, false, true, filter, length, replicate, slice_index, IfOk, OnOk};
ghost use Rattle.channel_parts.specs.Groups.{AreMade, IsMade, is_head};
ghost use Rattle.channel_parts.specs.Labels.{IsLeastTogether};
ghost use Rattle.channel_parts.specs.PartLists.{AreParts, IsPartList, PartsGive, device_numbers, net_numbers};
ghost use Rattle.known_nets.specs.KnownTables.{IsKnownTable, known_at};
ghost use Rattle.known_nets.specs.Wired.{IsWired};
ghost use Rattle.vrt_model.specs.Known.{IsPlain, IsTogether};
ghost use Rattle.vrt_model.specs.Lists.{At};
ghost use Rattle.vrt_model.specs.declared.rules.Phase.{Phase as PhaseValue};

use crate::cycle::search_all;
use crate::grouping::{devices_by_part, nets_by_part};
use crate::known_bits::copied;
use crate::least::least_nets;
use crate::listing::in_order;
use crate::part::{Part, PartFault, Parts};
use crate::ranking::ranked;
use known_nets::{known_nets, short_number};
use std::alloc::Global;
use vrt_model::{Circuit, Dev, Net, NoMemory, Phase, Seq};

/// Nets of these numbers.
fn nets_of(alloc: Global, numbers: &[u32]) -> Result<Seq<Net>, NoMemory>
    ensures { IfOk result (λ nets. net_numbers nets ≡ numbers.now) }
{
    let mut nets = Seq::new(alloc);
    for number in numbers {
        nets.append(Net(*number))?;
    }
    Ok(nets)
}

/// Devices of these numbers.
fn devices_of(alloc: Global, numbers: &[u32]) -> Result<Seq<Dev>, NoMemory>
    ensures { IfOk result (λ devices. device_numbers devices ≡ numbers.now) }
{
    let mut devices = Seq::new(alloc);
    for number in numbers {
        devices.append(Dev(*number))?;
    }
    Ok(devices)
}

/// As many ranks of 0 as there are nets.
fn zeros(alloc: Global, count: usize) -> Result<Vec<usize>, NoMemory>
    ensures { IfOk result (λ t. t.items ≡ replicate count 0) }
{
    match vec![in alloc; 0; count] {
        Ok(ranks) => Ok(ranks),
        Err(_) => Err(NoMemory),
    }
}

/// The part of a least net.
fn part_of(
    alloc: Global,
    head: ((usize, usize), usize),
    nets: &[Seq<u32>],
    devices: &[Seq<u32>],
) -> Result<Part, NoMemory>
    requires nets { head.1 < length nets.now }
    requires devices { head.1 < length devices.now }
    ensures { IfOk result (λ part. IsMade nets.now devices.now head part) }
{
    let rank = short_number(head.0.0)?;
    let joined = nets_of(alloc, nets[head.1].as_slice())?;
    let joining = devices_of(alloc, devices[head.1].as_slice())?;
    Ok(Part {
        rank,
        nets: joined,
        devices: joining,
    })
}

/// Whether a net is the least of its part.
fn is_head(pair: ((usize, usize), usize)) -> bool
    ensures { result ≡ is_head pair }
{
    pair.0.1 == pair.1
}

/// Adds the part of a net at the end, where the net is the least of its part.
fn add_part(
    alloc: Global,
    pair: ((usize, usize), usize),
    nets: &[Seq<u32>],
    devices: &[Seq<u32>],
    list: &mut Seq<Part>,
) -> Result<(), NoMemory>
    requires nets { pair.1 < length nets.now }
    requires devices { pair.1 < length devices.now }
    ensures { OnOk result ((order : List ((ℕ × ℕ) × ℕ)) → AreMade nets.now devices.now (filter is_head order) list.old → AreMade nets.now devices.now (filter is_head (order ++ pair ∷ [])) list.new) }
{
    if !is_head(pair) {
        return Ok(());
    }
    let part = part_of(alloc, pair, nets, devices)?;
    list.append(part)?;
    Ok(())
}

/// The parts of those of some nets that are the least of their parts, in their order.
fn parts_of(
    alloc: Global,
    order: &[((usize, usize), usize)],
    nets: &[Seq<u32>],
    devices: &[Seq<u32>],
) -> Result<Seq<Part>, NoMemory>
    requires nets { (i : ℕ) (pair : (ℕ × ℕ) × ℕ) → At order.now i pair → pair.1 < length nets.now }
    requires devices { length devices.now ≡ length nets.now }
    ensures { IfOk result (λ list. AreMade nets.now devices.now (filter is_head order.now) list) }
{
    let mut list = Seq::new(alloc);
    for pair in order {
        add_part(alloc, *pair, nets, devices, &mut list)?;
    }
    Ok(list)
}

/// The parts by their ranks, where these nets are known, and these are the least nets of the parts of the bare or the
/// kept circuit.
fn listed(
    alloc: Global,
    circuit: &Circuit,
    known: &[Option<bool>],
    least: &[usize],
    ranks: &[usize],
    bare: bool,
) -> Result<Parts, NoMemory>
    requires wired { IsWired circuit.now }
    requires known { length known.now ≡ length circuit.now.nets }
    requires nets { length least.now ≡ length circuit.now.nets }
    requires ranks { length ranks.now ≡ length circuit.now.nets }
    ensures { IfOk result (λ parts. (phase : PhaseValue) → IsKnownTable circuit.now phase (known_at known.now) → ((n : ℕ) → IsPlain circuit.now n → IsLeastTogether circuit.now phase bare n (slice_index least.now n)) → ((n m : ℕ) → IsTogether circuit.now phase bare n m → slice_index ranks.now n ≡ slice_index ranks.now m) → AreParts circuit.now phase bare (slice_index ranks.now) parts) }
{
    let order = in_order(alloc, circuit, ranks, least)?;
    let nets = nets_by_part(alloc, circuit, least)?;
    let devices = devices_by_part(alloc, circuit, known, least, bare)?;
    let list = parts_of(alloc, order.as_slice(), nets.as_slice(), devices.as_slice())?;
    let bits = copied(alloc, known)?;
    Ok(Parts { known: bits, list })
}

/// The parts of the bare circuit, or the first cycle of arcs.
fn bare_parts(
    alloc: Global,
    circuit: &Circuit,
    phase: &Phase,
) -> Result<Result<Parts, PartFault>, NoMemory>
    requires { IsWired circuit.now }
    ensures { IfOk result (λ answer. PartsGive circuit.now phase.now true answer) }
{
    let table = known_nets(alloc, circuit, phase)?;
    let known = table.as_slice();
    let labels = least_nets(alloc, circuit, known, true)?;
    let least = labels.as_slice();
    let found = ranked(alloc, circuit, phase, known, least)?;
    match found {
        Some(ranks) => {
            let parts = listed(alloc, circuit, known, least, ranks.as_slice(), true)?;
            Ok(Ok(parts))
        }
        None => {
            let around = search_all(alloc, circuit, phase, known, least)?;
            match around {
                Some(cycle) => {
                    let nets = nets_of(alloc, cycle.as_slice())?;
                    Ok(Err(PartFault::Cycle { nets }))
                }
                None => unreachable!(),
            }
        }
    }
}

/// The parts of the kept circuit, all of rank 0, where these nets are known.
fn kept_by(alloc: Global, circuit: &Circuit, known: &[Option<bool>]) -> Result<Parts, NoMemory>
    requires wired { IsWired circuit.now }
    requires known { length known.now ≡ length circuit.now.nets }
    ensures { IfOk result (λ parts. (phase : PhaseValue) → IsKnownTable circuit.now phase (known_at known.now) → AreParts circuit.now phase false (λ n. 0) parts) }
{
    let labels = least_nets(alloc, circuit, known, false)?;
    let none = zeros(alloc, circuit.nets.len())?;
    let parts = listed(
        alloc,
        circuit,
        known,
        labels.as_slice(),
        none.as_slice(),
        false,
    )?;
    Ok(parts)
}

/// The parts of the kept circuit, all of rank 0.
pub(crate) fn kept_parts(alloc: Global, circuit: &Circuit, phase: &Phase) -> Result<Parts, NoMemory>
    requires { IsWired circuit.now }
    ensures { IfOk result (λ parts. AreParts circuit.now phase.now false (λ n. 0) parts) }
{
    let table = known_nets(alloc, circuit, phase)?;
    let parts = kept_by(alloc, circuit, table.as_slice())?;
    Ok(parts)
}

/// The parts of the circuit with its keepers, all of rank 0, from those without them: the same nets are known in both, so that this
/// is not worked out again. Nothing but want of memory refuses.
pub fn parts_with_keepers(alloc: Global, circuit: &Circuit, bare: &Parts) -> Result<Parts, NoMemory>
    requires wired { IsWired circuit.now }
    requires known { length bare.now.known ≡ length circuit.now.nets }
    ensures { IfOk result (λ kept. (phase : PhaseValue) → IsKnownTable circuit.now phase (known_at bare.now.known) → IsPartList circuit.now phase false kept) }
{
    kept_by(alloc, circuit, bare.known.as_slice())
}

/// The parts of the bare or the kept circuit, or the first cycle of arcs.
fn any_parts(
    alloc: Global,
    circuit: &Circuit,
    phase: &Phase,
    bare: bool,
) -> Result<Result<Parts, PartFault>, NoMemory>
    requires { IsWired circuit.now }
    ensures { IfOk result (λ answer. PartsGive circuit.now phase.now bare answer) }
{
    if bare {
        bare_parts(alloc, circuit, phase)
    } else {
        let parts = kept_parts(alloc, circuit, phase)?;
        Ok(Ok(parts))
    }
}

/// The known nets of a circuit in a phase, and its channel-connected parts in their order (R. E. Bryant, A switch-level model
/// and simulator for MOS digital systems, IEEE Transactions on Computers C-33, 1984).
///
/// With `bare` the keepers are left out. A part then stands above the nets that are not known and at the gates of its
/// devices, and above those that are linked to outputs of whole instances in it, so that the circuit has exactly one
/// solution, for any bits of the inputs and holds, where its whole instances are determined; and a circuit whose arcs lead
/// around is refused with a cycle that begins with the least net on any. Without `bare` keepers join nets as
/// other devices do, all ranks are 0, and no circuit is refused. What is known is known without keepers in both. Beside
/// this, nothing but want of memory refuses.
pub fn parts(
    alloc: Global,
    circuit: &Circuit,
    phase: &Phase,
    bare: bool,
) -> Result<Parts, PartFault>
    requires { IsWired circuit.now }
    ensures { PartsGive circuit.now phase.now bare result }
{
    match any_parts(alloc, circuit, phase, bare) {
        Ok(answer) => answer,
        Err(_) => Err(PartFault::NoMemory),
    }
}
