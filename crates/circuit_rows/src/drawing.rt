//! What a line draws of a circuit.

use crate::stop::Stop;
use crate::words::{Drawing, bit, number};
use circuit_draft::Draft;
use vrt_model::{ClockRef, Kind, Net, NetKind};

/// The net at a place of a line.
fn net(numbers: &[u32], at: usize) -> Result<Net, Stop> {
    Ok(Net(number(numbers, at)?))
}

/// Draws what a line says.
pub(crate) fn draw(draft: &mut Draft, what: Drawing, numbers: &[u32]) -> Result<(), Stop> {
    match what {
        Drawing::Plain => nets(draft, NetKind::Plain, number(numbers, 0)?),
        Drawing::Input => nets(draft, NetKind::Input, number(numbers, 0)?),
        Drawing::Clock => clock(draft, bit(numbers, 0)?),
        Drawing::NDevice => device(draft, Kind::N, numbers),
        Drawing::PDevice => device(draft, Kind::P, numbers),
        Drawing::NKeeper => keeper(draft, Kind::N, numbers),
        Drawing::PKeeper => keeper(draft, Kind::P, numbers),
        Drawing::Inverter => inverter(draft, net(numbers, 0)?, net(numbers, 1)?),
        Drawing::Hold => hold(draft, net(numbers, 0)?, 2),
        Drawing::Sized => hold(draft, net(numbers, 0)?, number(numbers, 1)?),
        Drawing::Scale => scale(draft, number(numbers, 0)?),
        Drawing::Inverters => inverters(draft, numbers),
        Drawing::Row => row(draft, numbers),
    }
}

fn nets(draft: &mut Draft, kind: NetKind, count: u32) -> Result<(), Stop> {
    for _ in 0..count {
        draft.net(kind)?;
    }
    Ok(())
}

fn clock(draft: &mut Draft, inverted: bool) -> Result<(), Stop> {
    draft.net(NetKind::Clock(ClockRef { clock: 0, inverted }))?;
    Ok(())
}

fn device(draft: &mut Draft, kind: Kind, numbers: &[u32]) -> Result<(), Stop> {
    let (left, gate) = (net(numbers, 0)?, net(numbers, 1)?);
    let (right, level) = (net(numbers, 2)?, number(numbers, 3)?);
    draft.device(kind, level.min(255) as u8, gate, left, right)?;
    Ok(())
}

fn keeper(draft: &mut Draft, kind: Kind, numbers: &[u32]) -> Result<(), Stop> {
    let (left, gate, right) = (net(numbers, 0)?, net(numbers, 1)?, net(numbers, 2)?);
    draft.keeper(kind, 4, gate, left, right)?;
    Ok(())
}

fn hold(draft: &mut Draft, net: Net, size: u32) -> Result<(), Stop> {
    draft.hold(net, size.min(255) as u8)?;
    Ok(())
}

fn scale(draft: &mut Draft, scale: u32) -> Result<(), Stop> {
    if scale != 16 {
        return Err(Stop::NotRead);
    }
    draft.widen();
    Ok(())
}

fn inverter(draft: &mut Draft, from: Net, to: Net) -> Result<(), Stop> {
    draft.inverter(from, to)?;
    Ok(())
}

fn inverters(draft: &mut Draft, numbers: &[u32]) -> Result<(), Stop> {
    let (first, last) = (number(numbers, 0)?, number(numbers, 1)?);
    for at in first..last {
        inverter(draft, Net(at.saturating_add(1)), Net(at))?;
    }
    inverter(draft, net(numbers, 2)?, Net(last))
}

fn row(draft: &mut Draft, numbers: &[u32]) -> Result<(), Stop> {
    let (gate, first, last) = (net(numbers, 0)?, number(numbers, 1)?, number(numbers, 2)?);
    for step in 0..first.abs_diff(last) {
        let (left, right) = if first < last {
            (
                first.saturating_add(step),
                first.saturating_add(step).saturating_add(1),
            )
        } else {
            (
                first.saturating_sub(step),
                first.saturating_sub(step).saturating_sub(1),
            )
        };
        draft.device(Kind::N, 6, gate, Net(left), Net(right))?;
    }
    Ok(())
}
