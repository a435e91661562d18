//! The lines that draw a circuit.
//!
//! | line | what it draws |
//! |---|---|
//! | `circuit` | a new circuit begins, of the supplies alone: the nets `0` and `1` |
//! | `net NAME KIND COUNT` | a net, `input`, `plain`, or with the first `clock` or its inverse, `!clock`, or so many of one name |
//! | `device KIND LEVEL GATE NET NET` | a device, `n` or `p`, of this level, whose channel joins two nets |
//! | `keeper KIND LEVEL GATE NET NET` | the same as a keeper |
//! | `hold NET END PHASE=BIT ..` | a hold, and the bits with which it enters phases |
//! | `instance CELL NET ..` | an instance of the cell of this number, with the nets of its ports |
//!
//! The end of a hold is `-` where it stands for itself, `LATCH` for an element of the model, `INSTANCE/LATCH` for one of an
//! instance, by its number, and has a `!` before it for the inverse.

use crate::stop::Stop;
use row_script::word_and_rest;
use std::alloc::Global;
use vrt_model::{
    Circuit, ClockRef, Device, Enter, FlatInstance, FlatNet, Hold, HoldEnd, Kind, Net, NetKind,
    Seq, Text, USUAL_SOURCE,
};

/// More nets than a circuit has.
const MOST_NETS: usize = 100_000;

/// A circuit without nets.
pub(crate) fn empty(alloc: Global) -> Circuit {
    Circuit {
        nets: Seq::new(alloc),
        devices: Seq::new(alloc),
        holds: Seq::new(alloc),
        instances: Seq::new(alloc),
        wholes: Seq::new(alloc),
        source: USUAL_SOURCE,
    }
}

/// The number that a word is.
pub(crate) fn number(word: &str) -> Result<u32, Stop> {
    match word.parse::<u32>() {
        Ok(number) => Ok(number),
        Err(_) => Err(Stop::NotRead),
    }
}

/// The kind of nets that a word says.
fn kind_of(word: &str) -> Result<NetKind, Stop> {
    match word {
        "low" => Ok(NetKind::Supply(false)),
        "high" => Ok(NetKind::Supply(true)),
        "clock" => Ok(NetKind::Clock(ClockRef {
            clock: 0,
            inverted: false,
        })),
        "!clock" => Ok(NetKind::Clock(ClockRef {
            clock: 0,
            inverted: true,
        })),
        "input" => Ok(NetKind::Input),
        "plain" => Ok(NetKind::Plain),
        _ => Err(Stop::NotRead),
    }
}

/// Adds nets of one name and kind: so many, or one where no number is said.
fn add_nets(alloc: Global, circuit: &mut Circuit, rest: &str) -> Result<(), Stop> {
    let (name, rest) = word_and_rest(rest);
    let (word, times) = word_and_rest(rest);
    let kind = kind_of(word)?;
    let count = if times.is_empty() { 1 } else { number(times)? };
    for _ in 0..count {
        let name = Text::from_bytes(alloc, name.as_bytes())?;
        circuit.nets.append(FlatNet { name, kind })?;
    }
    Ok(())
}

/// The net of a name.
pub(crate) fn net_of(circuit: &Circuit, name: &str) -> Result<Net, Stop> {
    let mut nets = circuit.nets.as_slice().iter();
    match nets.position(|net| net.name.as_bytes() == name.as_bytes()) {
        Some(at) => Ok(Net(at.min(MOST_NETS) as u32)),
        None => Err(Stop::NotRead),
    }
}

/// Adds a device.
fn add_device(alloc: Global, circuit: &mut Circuit, keeper: bool, rest: &str) -> Result<(), Stop> {
    let (word, rest) = word_and_rest(rest);
    let (level, rest) = word_and_rest(rest);
    let (gate, rest) = word_and_rest(rest);
    let (left, right) = word_and_rest(rest);
    let kind = match word {
        "n" => Kind::N,
        "p" => Kind::P,
        _ => return Err(Stop::NotRead),
    };
    let level = number(level)?.min(255) as u8;
    let (gate, left, right) = (
        net_of(circuit, gate)?,
        net_of(circuit, left)?,
        net_of(circuit, right)?,
    );
    circuit.devices.append(Device {
        name: Text::new(alloc),
        kind,
        gate,
        left,
        right,
        level,
        keeper,
    })?;
    Ok(())
}

/// The end of a hold at a net, by the word without its `!`.
fn end_of(alloc: Global, net: Net, word: &str) -> Result<HoldEnd, Stop> {
    if word == "-" {
        return Ok(HoldEnd::Own(net));
    }
    let (instance, latch) = match word.split_once('/') {
        Some((instance, latch)) => (Some(number(instance)?), latch),
        None => (None, word),
    };
    let element = Text::from_bytes(alloc, latch.as_bytes())?;
    Ok(HoldEnd::Latch { instance, element })
}

/// Begins a circuit of the supplies.
fn begin(alloc: Global, circuit: &mut Circuit) -> Result<(), Stop> {
    *circuit = empty(alloc);
    add_nets(alloc, circuit, "0 low")?;
    add_nets(alloc, circuit, "1 high")
}

/// Adds the bits with which a hold enters phases.
fn add_enters(enters: &mut Seq<Enter>, words: &str) -> Result<(), Stop> {
    for word in words.split_whitespace() {
        let Some((phase, bit)) = word.split_once('=') else {
            return Err(Stop::NotRead);
        };
        let phase = number(phase)?;
        let value = bit == "1";
        enters.append(Enter { phase, value })?;
    }
    Ok(())
}

/// Adds a hold.
fn add_hold(alloc: Global, circuit: &mut Circuit, rest: &str) -> Result<(), Stop> {
    let (name, rest) = word_and_rest(rest);
    let (word, bits) = word_and_rest(rest);
    let net = net_of(circuit, name)?;
    let (inverted, end) = match word.strip_prefix("!") {
        Some(end) => (true, end),
        None => (false, word),
    };
    let mut enters = Seq::new(alloc);
    add_enters(&mut enters, bits)?;
    let end = end_of(alloc, net, end)?;
    circuit.holds.append(Hold {
        net,
        size: 1,
        end,
        inverted,
        enters,
    })?;
    Ok(())
}

/// Adds the nets of the ports of an instance.
fn add_ports(ports: &mut Seq<Net>, circuit: &Circuit, words: &str) -> Result<(), Stop> {
    for word in words.split_whitespace() {
        ports.append(net_of(circuit, word)?)?;
    }
    Ok(())
}

/// Adds an instance.
fn add_instance(alloc: Global, circuit: &mut Circuit, rest: &str) -> Result<(), Stop> {
    let (word, nets) = word_and_rest(rest);
    let cell = number(word)?;
    let mut ports = Seq::new(alloc);
    add_ports(&mut ports, circuit, nets)?;
    circuit.instances.append(FlatInstance {
        path: Text::new(alloc),
        cell,
        ports,
    })?;
    Ok(())
}

/// Draws what a line says, and says whether it was one that draws.
pub(crate) fn draw(
    alloc: Global,
    circuit: &mut Circuit,
    word: &str,
    rest: &str,
) -> Result<bool, Stop> {
    match word {
        "circuit" => begin(alloc, circuit)?,
        "net" => add_nets(alloc, circuit, rest)?,
        "device" => add_device(alloc, circuit, false, rest)?,
        "keeper" => add_device(alloc, circuit, true, rest)?,
        "hold" => add_hold(alloc, circuit, rest)?,
        "instance" => add_instance(alloc, circuit, rest)?,
        _ => return Ok(false),
    }
    Ok(true)
}
