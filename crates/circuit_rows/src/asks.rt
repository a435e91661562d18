//! Known nets, parts and signals.

use crate::classes::tell_classes;
use crate::stop::Stop;
use crate::words::{Ask, behind, bit, number};
use anyhow::Result;
use channel_parts::{PartFault, Parts, in_order, known_nets, least_nets, parts};
use plain_paths::{Response, Signals, is_flat, signals_at};
use std::alloc::Global;
use vrt_model::{Circuit, Net, Phase, Seq, Text};

/// Tells what a line asks for.
pub(crate) fn ask(rt: HostRuntime, circuit: &Circuit, what: Ask, numbers: &[u32]) -> Result<()> {
    match what {
        Ask::Known => tell_known(rt, circuit, numbers),
        Ask::Least => tell_least(rt, circuit, numbers),
        Ask::Parts => tell_parts(rt, circuit, numbers),
        Ask::Order => tell_order(rt, circuit, numbers),
        Ask::Signals => tell_signals(rt, circuit, numbers),
        Ask::Classes => tell_classes(rt, circuit, numbers),
    }
}

/// A phase in which the clock has this bit.
pub(crate) fn phase(alloc: Global, bit: bool) -> Result<Phase, Stop> {
    let mut bits = Seq::new(alloc);
    if bits.push(bit).is_err() {
        return Err(Stop::NoMemory);
    }
    Ok(Phase {
        line: 1,
        name: Text::new(alloc),
        bits,
    })
}

/// The known nets of a circuit.
#[tactic(auto, using(known_nets::proofs::WiredLaws::flat_wired))]
fn known(alloc: Global, circuit: &Circuit) -> Result<Vec<Option<bool>>, Stop> {
    if !is_flat(circuit) {
        return Err(Stop::Unfit);
    }
    let phase = phase(alloc, true)?;
    Ok(known_nets(alloc, circuit, &phase)?)
}

/// A bit, or that it is not known.
fn letter(bit: Option<bool>) -> char {
    match bit {
        Some(true) => '1',
        Some(false) => '0',
        None => '-',
    }
}

/// What is known of nets, a letter for each.
fn letters(alloc: Global, known: &[Option<bool>]) -> Result<String, Stop> {
    let mut letters = String::new(alloc);
    for bit in known {
        letters.push(letter(*bit))?;
    }
    Ok(letters)
}

fn tell_known(rt: HostRuntime, circuit: &Circuit, nets: &[u32]) -> Result<()> {
    let known = known(rt.alloc(), circuit)?;
    if nets.is_empty() {
        let letters = letters(rt.alloc(), known.as_slice())?;
        println!(rt; "known: {letters}")?;
    }
    for net in nets {
        let letter = letter(known.get(*net as usize).copied().flatten());
        println!(rt; "known: net {net} is {letter}")?;
    }
    Ok(())
}

/// The least nets of the parts.
#[tactic(auto, using(known_nets::proofs::WiredLaws::flat_wired))]
fn least(alloc: Global, circuit: &Circuit, bare: bool) -> Result<Vec<usize>, Stop> {
    let known = known(alloc, circuit)?;
    if !is_flat(circuit) {
        return Err(Stop::Unfit);
    }
    Ok(least_nets(alloc, circuit, known.as_slice(), bare)?)
}

fn tell_least(rt: HostRuntime, circuit: &Circuit, numbers: &[u32]) -> Result<()> {
    let least = least(rt.alloc(), circuit, bit(numbers, 0)?)?;
    let nets = behind(numbers, 1);
    if nets.is_empty() {
        println!(rt; "least: {least:?}")?;
    }
    for net in nets {
        let first = least.get(*net as usize);
        println!(rt; "least: of net {net} {first:?}")?;
    }
    Ok(())
}

/// The parts of a circuit, or a cycle.
#[derive(Drop)]
enum Found {
    Parts(Parts),
    Cycle(Seq<Net>),
}

/// The parts of a circuit.
#[tactic(auto, using(known_nets::proofs::WiredLaws::flat_wired))]
fn parts_of(alloc: Global, circuit: &Circuit, bare: bool) -> Result<Found, Stop> {
    if !is_flat(circuit) {
        return Err(Stop::Unfit);
    }
    let phase = phase(alloc, true)?;
    match parts(alloc, circuit, &phase, bare) {
        Ok(parts) => Ok(Found::Parts(parts)),
        Err(PartFault::Cycle { nets }) => Ok(Found::Cycle(nets)),
        Err(PartFault::NoMemory) => Err(Stop::NoMemory),
    }
}

fn tell_parts(rt: HostRuntime, circuit: &Circuit, numbers: &[u32]) -> Result<()> {
    match parts_of(rt.alloc(), circuit, bit(numbers, 0)?)? {
        Found::Parts(parts) => tell_list(rt, &parts, behind(numbers, 1)),
        Found::Cycle(nets) => tell_cycle(rt, nets.as_slice()),
    }
}

/// The first nets of a cycle.
fn tell_cycle(rt: HostRuntime, nets: &[Net]) -> Result<()> {
    let (count, first) = (nets.len(), nets.get(..3).unwrap_or(nets));
    println!(rt; "cycle: {count} nets, first {first:?}")?;
    Ok(())
}

/// The parts at these places, or all, with what is known.
fn tell_list(rt: HostRuntime, parts: &Parts, places: &[u32]) -> Result<()> {
    let (count, nets) = (parts.list.len(), parts.known.len());
    println!(rt; "parts: {count} of {nets} nets")?;
    if places.is_empty() {
        return tell_all(rt, parts);
    }
    for at in places {
        tell_part(rt, parts, *at as usize)?;
    }
    Ok(())
}

/// What is known, and all parts.
fn tell_all(rt: HostRuntime, parts: &Parts) -> Result<()> {
    let letters = letters(rt.alloc(), parts.known.as_slice())?;
    println!(rt; "known: {letters}")?;
    for at in 0..parts.list.len() {
        tell_part(rt, parts, at)?;
    }
    Ok(())
}

/// The part at a place.
fn tell_part(rt: HostRuntime, parts: &Parts, at: usize) -> Result<()> {
    let Some(part) = parts.list.get(at) else {
        return Err(Stop::NotRead.into());
    };
    let (rank, nets, devices) = (part.rank, part.nets.as_slice(), part.devices.as_slice());
    println!(rt; "part {at}: rank {rank}, {nets:?}, {devices:?}")?;
    Ok(())
}

/// Numbers as places.
fn places(alloc: Global, numbers: &[u32]) -> Result<Vec<usize>, Stop> {
    let mut places = Vec::new(alloc);
    for number in numbers {
        places.push(*number as usize)?;
    }
    Ok(places)
}

/// The plain nets in their order, by ranks of all nets.
fn order(
    alloc: Global,
    circuit: &Circuit,
    ranks: &[u32],
) -> Result<Vec<((usize, usize), usize)>, Stop> {
    let least = least(alloc, circuit, true)?;
    let ranks = places(alloc, ranks)?;
    if ranks.len() != circuit.nets.len() || least.len() != ranks.len() {
        return Err(Stop::Unfit);
    }
    Ok(in_order(alloc, circuit, ranks.as_slice(), least.as_slice())?)
}

fn tell_order(rt: HostRuntime, circuit: &Circuit, ranks: &[u32]) -> Result<()> {
    let nets = order(rt.alloc(), circuit, ranks)?;
    println!(rt; "order: {nets:?}")?;
    Ok(())
}

/// The bits of numbers.
fn bits(alloc: Global, numbers: &[u32]) -> Result<Vec<bool>, Stop> {
    let mut bits = Vec::new(alloc);
    for number in numbers {
        bits.push(*number != 0)?;
    }
    Ok(bits)
}

/// The signals of all nets, and what one of them shows.
struct Shown {
    signals: Signals,
    response: Response,
}

/// By hand, so that letting go of one is a call.
impl Drop for Shown {
    fn drop(self) {
        let Shown {
            signals: _signals,
            response: _response,
        } = self;
    }
}

/// The signals of a circuit at bits of its holds and its nets.
fn signals_of(
    alloc: Global,
    circuit: &Circuit,
    net: usize,
    held: bool,
    reading: &[bool],
) -> Result<Shown, Stop> {
    if !is_flat(circuit) {
        return Err(Stop::Unfit);
    }
    let signals = signals_at(alloc, circuit, true, reading, [held].as_slice())?;
    if net >= signals.zeros.len() || net >= signals.ones.len() {
        return Err(Stop::NotRead);
    }
    let response = signals.response(net);
    Ok(Shown { signals, response })
}

fn tell_signals(rt: HostRuntime, circuit: &Circuit, numbers: &[u32]) -> Result<()> {
    let (net, held) = (number(numbers, 0)?, bit(numbers, 1)?);
    let reading = bits(rt.alloc(), behind(numbers, 2))?;
    let shown = signals_of(rt.alloc(), circuit, net as usize, held, reading.as_slice())?;
    let (strengths, response) = (shown.signals.strengths.as_slice(), shown.response);
    println!(rt; "signals: {strengths:?}, net {net} shows {response:?}")?;
    Ok(())
}
