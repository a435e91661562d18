//! The bits of supplies and clock ports in a phase.

ghost use Rattle.std.specs.Prelude.{◌≡◌, IfOk, map};
ghost use Rattle.known_nets.specs.KnownTables.{fixed_bit_of};
ghost use Rattle.vrt_model.specs.Reading.{clock_bit};
ghost use Rattle.vrt_model.specs.declared.circuit.FlatNet.{FlatNet as FlatNetValue};

use std::alloc::Global;
use vrt_model::{ClockRef, FlatNet, NetKind, NoMemory, Phase};

/// The bit of a carried clock in a phase.
fn bit_of_clock(phase: &Phase, clock: ClockRef) -> bool
    ensures { result ≡ clock_bit phase.now clock }
{
    let bit = match phase.bits.get(clock.clock as usize) {
        Some(bit) => *bit,
        None => false,
    };
    if clock.inverted { !bit } else { bit }
}

/// The bit of a supply or of a clock port, if the net is one.
fn fixed_bit(phase: &Phase, net: &FlatNet) -> Option<bool>
    ensures { result ≡ fixed_bit_of phase.now net.now.kind }
{
    match net.kind {
        NetKind::Supply(value) => Some(value),
        NetKind::Clock(clock) => Some(bit_of_clock(phase, clock)),
        NetKind::Input => None,
        NetKind::Plain => None,
    }
}

/// The bits of the supplies and the clock ports, by net.
pub(crate) fn fixed_bits(
    alloc: Global,
    nets: &[FlatNet],
    phase: &Phase,
) -> Result<Vec<Option<bool>>, NoMemory>
    ensures { IfOk result (λ t. t.items ≡ map (λ (net : FlatNetValue). fixed_bit_of phase.now net.kind) nets.now) }
{
    let mut bits = Vec::new(alloc);
    for net in nets {
        let Ok(()) = bits.push(fixed_bit(phase, net)) else {
            return Err(NoMemory);
        };
    }
    Ok(bits)
}
