//! Nets that are observed in a circuit with a cell in it, and with the cell whole.

ghost use Rattle.whole_solutions.specs.Observed.{ObservedNetsAreThere, WholeObservesNoMore};

/// Each net that is observed in a circuit with a cell in it is observed with the cell whole, or has a given value there, or is an
/// observed plain net of the cell. A supply may be observed for a device inside the cell alone, so given values are named.
pub fn observed_nets_are_there()
    ensures { ObservedNetsAreThere }
{}

/// Each net that is observed with a cell whole is observed in the circuit with the cell in it.
pub fn whole_observes_no_more()
    ensures { WholeObservesNoMore }
{}
