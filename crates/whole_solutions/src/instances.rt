//! Instances whose constraints are not broken.

ghost use Rattle.whole_solutions.specs.Instances.{InstanceGivesValuation};
ghost use Rattle.whole_solutions.specs.PairedPorts.{PairedPortsAreGiven};

/// Where no constraint of an instance is broken, and the ports that its constraints name have bits, the bits of a reading at its
/// nets are a reading of its cell, at a valuation that meets the cell's constraints. For cells without holds.
pub fn instance_gives_valuation()
    ensures { InstanceGivesValuation }
{}

/// What that asks of ports holds of each supported cell: a net that carries a clock is that of a clock port, and a port that an
/// `assume` names is at a net with a given value, where each name in an `assume` of the cell is that of a port.
pub fn paired_ports_are_given()
    ensures { PairedPortsAreGiven }
{}
