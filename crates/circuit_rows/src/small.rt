//! All circuits of three plain nets with at most three devices beside the plain search.

use crate::board::{Board, Entry};
use crate::stop::Stop;
use crate::values::{valuation, value};
use circuit_draft::Draft;
use plain_paths::{Signals, is_flat, signals_at};
use std::alloc::Global;
use vrt_model::{Circuit, Kind, Net, NetKind, Valuation};

/// How many kinds of devices the circuits have: a channel, a kind, and one of two levels.
const KINDS: usize = 36;

/// How many nodes a circuit's store has room for.
const BUDGET: u32 = 1000;

/// The channels, by their left and right nets: 5, 6 and 7 are the plain nets, 0 and 1 the supplies.
const CHANNELS: [(u32, u32); 9] = [
    (0, 5),
    (0, 6),
    (0, 7),
    (1, 5),
    (1, 6),
    (1, 7),
    (5, 6),
    (6, 7),
    (5, 7),
];

/// The levels and the size that the circuits have.
#[derive(Clone, Copy, Debug, PartialEq, Eq)]
pub enum Scale {
    /// Devices of 4 and 6, a hold of 2, and given nets of 8.
    Eight,
    /// Devices of 6 and 14, a hold of 5, and given nets of 15.
    Fifteen,
}

impl Scale {
    /// The levels of devices.
    fn levels(self) -> (u8, u8) {
        match self {
            Scale::Eight => (4, 6),
            Scale::Fifteen => (6, 14),
        }
    }

    /// A circuit of the supplies, with three inputs and three plain nets, the last with a hold.
    fn draft(self, alloc: Global) -> Result<Draft, Stop> {
        let mut draft = Draft::new(alloc)?;
        for _ in 0..3u32 {
            draft.net(NetKind::Input)?;
        }
        for _ in 0..3u32 {
            draft.net(NetKind::Plain)?;
        }
        match self {
            Scale::Eight => draft.hold(Net(7), 2)?,
            Scale::Fifteen => {
                draft.widen();
                draft.hold(Net(7), 5)?;
            }
        }
        Ok(draft)
    }
}

/// Adds the device of a number at an input. From KINDS on there is none.
fn add_numbered(draft: &mut Draft, scale: Scale, number: usize, gate: Net) -> Result<(), Stop> {
    let Some((left, right)) = CHANNELS.get(number / 4).copied() else {
        return Ok(());
    };
    let kind = if number % 2 == 0 { Kind::N } else { Kind::P };
    let (weak, strong) = scale.levels();
    let level = if number / 2 % 2 == 0 { weak } else { strong };
    draft.device(kind, level, gate, Net(left), Net(right))?;
    Ok(())
}

/// The circuit of three devices with inputs 2 to 4 as gates. Net 7 has a hold.
fn circuit(alloc: Global, scale: Scale, numbers: [usize; 3]) -> Result<Circuit, Stop> {
    let mut draft = scale.draft(alloc)?;
    let mut gate = 2u32;
    for number in numbers {
        add_numbered(&mut draft, scale, number, Net(gate))?;
        gate = gate.saturating_add(1);
    }
    Ok(draft.circuit)
}

/// The bits of the nets at a valuation, which is a number below 16.
fn reading(at: u32) -> [bool; 8] {
    [
        false,
        true,
        at & 8 != 0,
        at & 4 != 0,
        at & 2 != 0,
        false,
        false,
        false,
    ]
}

/// Whether the words of a net say what the table says, at a valuation.
fn agrees(board: &Board, table: &Signals, place: usize, at: &Valuation) -> Result<bool, Stop> {
    let net = place.saturating_add(5);
    let strength = table.strengths.get(net).copied().unwrap_or(0) as u32;
    for level in 1..=board.source() {
        if value(&board.store, board.entry(place, Entry::Level(level)), at)?
            != (level <= strength)
        {
            return Ok(false);
        }
    }
    let zero = value(&board.store, board.entry(place, Entry::Value(false)), at)?;
    let one = value(&board.store, board.entry(place, Entry::Value(true)), at)?;
    Ok(table.zeros.get(net) == Some(&zero) && table.ones.get(net) == Some(&one))
}

/// Whether the words of all nets say what the table says, at a valuation, which is a number below 16.
fn agrees_at(alloc: Global, circuit: &Circuit, board: &Board, number: u32) -> Result<bool, Stop> {
    if !is_flat(circuit) {
        return Err(Stop::Unfit);
    }
    let at = valuation(alloc, [8, 4, 2, 1].as_slice(), number)?;
    let (bits, held) = (reading(number), [number & 1 != 0]);
    let table = signals_at(alloc, circuit, true, bits.as_slice(), held.as_slice())?;
    for place in 0..3usize {
        if !agrees(board, &table, place, &at)? {
            return Ok(false);
        }
    }
    Ok(true)
}

/// Whether the words of a circuit agree with its plain tables at all valuations.
fn agrees_everywhere(alloc: Global, scale: Scale, numbers: [usize; 3]) -> Result<bool, Stop> {
    let circuit = circuit(alloc, scale, numbers)?;
    let mut board = Board::open(alloc, &circuit, BUDGET)?;
    if board.solve(&circuit)?.is_err() {
        return Err(Stop::Spent);
    }
    for number in 0..16u32 {
        if !agrees_at(alloc, &circuit, &board, number)? {
            return Ok(false);
        }
    }
    Ok(true)
}

/// How many circuits agree whose first devices are these, with each third device from the second on.
fn agreeing(alloc: Global, scale: Scale, first: usize, second: usize) -> Result<u32, Stop> {
    let mut agreeing = 0u32;
    for third in second..=KINDS {
        if agrees_everywhere(alloc, scale, [first, second, third])? {
            agreeing = agreeing.saturating_add(1);
        }
    }
    Ok(agreeing)
}

/// How many of all circuits agree.
fn all_agreeing(alloc: Global, scale: Scale) -> Result<u32, Stop> {
    let mut all = 0u32;
    for first in 0..=KINDS {
        for second in first..=KINDS {
            all = all.saturating_add(agreeing(alloc, scale, first, second)?);
        }
    }
    Ok(all)
}

/// Tells how many of all circuits agree with the plain search. There are 37 * 38 * 39 / 6, with no device as the last of
/// 37 kinds, and the order of the devices set aside.
pub(crate) fn tell_small(rt: HostRuntime, scale: Scale) -> anyhow::Result<()> {
    let all = all_agreeing(rt.alloc(), scale)?;
    println!(rt; "small: {all} circuits agree with the plain search")?;
    Ok(())
}
