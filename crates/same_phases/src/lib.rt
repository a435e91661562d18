//! Phases of a cell without clock ports: no two of them give a net that is observed in both different bits. Laws alone, each the contract of a
//! function that does nothing.
#![tactic(auto)]

ghost use Rattle.same_phases.specs.Phases.{EqualPhasesAreAlike, StatelessSettingsAreAlike, UnclockedPhasesAreAlike};

/// A net that is observed in two phases has the same bit in both, at each setting, where no net carries a clock and no instance is whole.
pub fn unclocked_phases_are_alike()
    ensures { UnclockedPhasesAreAlike }
{}

/// Without holds a valuation gives the same setting in all phases.
pub fn stateless_settings_are_alike()
    ensures { StatelessSettingsAreAlike }
{}

/// So two equal phases of a cell without clock ports and holds have the same bits, at each valuation that meets the constraints of both.
pub fn equal_phases_are_alike()
    ensures { EqualPhasesAreAlike }
{}
