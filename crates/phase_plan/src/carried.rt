//! What is known of the signals of a model in a phase: the bits of those that carry clocks.

ghost use Rattle.std.specs.Prelude.{◌≡◌, ◌<◌, IfOk, length};
ghost use Rattle.phase_plan.specs.Gives.{HasCarried};
ghost use Rattle.phase_terms.specs.Plans.{AreCarried};
ghost use Rattle.phase_terms.specs.Ready.{comparison_in};
ghost use Rattle.vrt_model.specs.Comparison.{default_clock_bit};
ghost use Rattle.vrt_model.specs.Lists.{bit_at};
ghost use Rattle.vrt_model.specs.ModelArcs.{carried_bits};
ghost use Rattle.vrt_model.specs.Reading.{clock_bit};

use crate::circuits::phase_of;
use phase_terms::Comparison;
use std::alloc::Global;
use vrt_model::{ClockRef, ClockedSignal, NoMemory, Phase, Rules, Seq};

/// The bit of a clock in a phase, by its number.
fn bit_at(phase: &Phase, clock: u32) -> bool
    ensures { result ≡ bit_at phase.now.bits clock }
{
    match phase.bits.get(clock as usize) {
        Some(bit) => *bit,
        None => false,
    }
}

/// The bit of a carried clock in a phase.
fn bit_of_clock(phase: &Phase, clock: ClockRef) -> bool
    ensures { result ≡ clock_bit phase.now clock }
{
    let bit = bit_at(phase, clock.clock);
    if clock.inverted { !bit } else { bit }
}

/// The bit of the clock that a signal carries, if it carries one.
fn carried_bit(phase: &Phase, clocked: &[ClockedSignal], signal: usize) -> Option<bool>
    ensures { result ≡ carried_bits phase.now clocked.now signal }
{
    let mut rest = clocked;
    'clocks: while let Some((one, behind)) = rest.split_first() {
        if one.signal as usize == signal {
            return Some(bit_of_clock(phase, one.clock));
        }
        rest = behind;
    }
    None
}

/// The bit of the default clock in a phase, if there is one.
fn default_bit(rules: &Rules, phase: &Phase) -> Option<bool>
    ensures { result ≡ default_clock_bit rules.now phase.now }
{
    match rules.defaultclocks.get(0) {
        Some(rule) => Some(bit_at(phase, rule.clock)),
        None => None,
    }
}

/// For each signal the bit of the clock that it carries, if it carries one.
fn signal_bits(
    alloc: Global,
    phase: &Phase,
    clocked: &[ClockedSignal],
    count: usize,
) -> Result<Seq<Option<bool>>, NoMemory>
    ensures { IfOk result (HasCarried phase.now clocked.now count) }
{
    let mut known = Seq::new(alloc);
    for signal in 0..count {
        known.append(carried_bit(phase, clocked, signal))?;
    }
    Ok(known)
}

/// For each signal the bit of the clock that it carries, if it carries one, and behind the signals that of the default clock.
pub(crate) fn carried(
    alloc: Global,
    compared: Comparison<'_>,
    phase: u32,
) -> Result<Seq<Option<bool>>, NoMemory>
    requires phase { phase < length compared.rules.now.phases }
    ensures { IfOk result (AreCarried (comparison_in compared.entry) phase) }
{
    let own = phase_of(compared.rules, phase);
    let clocked = compared.pairing.clocked.as_slice();
    let mut known = signal_bits(alloc, own, clocked, compared.model.signals.len())?;
    known.append(default_bit(compared.rules, own))?;
    Ok(known)
}
