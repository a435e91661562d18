//! Faults of both circuits.

ghost use Rattle.replaced_cells.specs.Faults.{FaultsAreShared, FaultsStandBelow, ObservedBitsShowFaults, PrintedValuesAreSame};

/// A fault that stands by one partial assignment stands by each that is the same on the observed nets.
pub fn observed_bits_show_faults()
    ensures { ObservedBitsShowFaults }
{}

/// Where bits are solutions of both circuits and of the cell, which is equal, a fault that stands with the instance whole stands in the
/// circuit with the cell in it, at the same net, port or instance. Of any kind: no float stands there, since each observed net shows a bit.
pub fn faults_stand_below()
    ensures { FaultsStandBelow }
{}

/// And it is printed with the same values, if with any.
pub fn printed_values_are_same()
    ensures { PrintedValuesAreSame }
{}

/// So no fault of any kind stands in the one circuit exactly where none stands in the other: where one stood inside, the cell were not
/// equal.
pub fn faults_are_shared()
    ensures { FaultsAreShared }
{}
