//! What the rules and the signals of a model say of a port.

ghost use Rattle.std.specs.Prelude.{◌≡◌};
ghost use Rattle.latch_match.specs.Facts.{clock_carried, is_in_way, leads_out, role_in, signal_paired};
ghost use Rattle.latch_match.specs.Marked.{has_in};

use crate::numbers::NumberSet;
use vrt_model::{ClockRef, ClockedSignal, PortRole};

/// A port: the supply that it is named as, its clock, whether a `port` rule names it, the signal that its rule names or
/// that fits it by name, whether a second signal fits it by name, and whether an `assume` names it.
#[derive(Clone, Copy)]
pub(crate) struct PortFacts {
    pub(crate) supply: Option<bool>,
    pub(crate) clock: Option<ClockRef>,
    pub(crate) is_ruled: bool,
    pub(crate) signal: Option<u32>,
    pub(crate) fits_again: bool,
    pub(crate) is_assumed: bool,
}

impl PortFacts {
    /// The signal that the port pairs with; a supply pairs with none.
    pub(crate) fn paired(self) -> Option<u32>
        ensures { result ≡ signal_paired self }
    {
        match self.supply {
            Some(_) => None,
            None => self.signal,
        }
    }

    /// The clock that the port gives its signal.
    pub(crate) fn clocked(self) -> Option<ClockedSignal>
        ensures { result ≡ clock_carried self }
    {
        let clock = self.clock?;
        let signal = self.paired()?;
        Some(ClockedSignal { signal, clock })
    }

    /// What the port is: a supply by its name, else a clock by a rule, else what its signal is.
    pub(crate) fn role(self, outputs: &NumberSet) -> Option<PortRole>
        ensures { result ≡ role_in (has_in outputs.now) self }
    {
        if let Some(value) = self.supply {
            return Some(PortRole::Supply(value));
        }
        if let Some(clock) = self.clock {
            return Some(PortRole::Clock(clock));
        }
        match self.signal {
            Some(signal) if outputs.contains(signal) => Some(PortRole::Output(signal)),
            Some(signal) => Some(PortRole::Input(signal)),
            None => None,
        }
    }

    /// Whether the signal that the port pairs with is in a set.
    fn is_paired_in(self, signals: &NumberSet) -> bool
        ensures { result ≡ leads_out (has_in signals.now) self }
    {
        match self.paired() {
            Some(signal) => signals.contains(signal),
            None => false,
        }
    }

    /// Whether the port stands in the way of a pairing. The sets are the outputs, and the signals that more than one
    /// port pairs with.
    pub(crate) fn is_in_way(self, outputs: &NumberSet, shared: &NumberSet) -> bool
        ensures { result ≡ is_in_way (has_in outputs.now) (has_in shared.now) self }
    {
        let is_supply = self.supply.is_some();
        let is_output = self.is_paired_in(outputs);
        let has_no_role = self.role(outputs).is_none();
        let fits_twice = !is_supply && !self.is_ruled && self.fits_again;
        let is_shared = self.is_paired_in(shared);
        let is_unknown = self.is_ruled && self.signal.is_none();
        let is_clock_apart = self.clock.is_some() && (is_supply || is_output);
        let is_output_assumed = is_output && self.is_assumed;
        has_no_role || fits_twice || is_shared || is_unknown || is_clock_apart || is_output_assumed
    }
}
