//! Circuits with one solution.

ghost use Rattle.whole_ranks.specs.Solved.{AcyclicNetsHaveOneSolution, RankedNetsHaveDrives, RankedNetsHaveOneSolution};

/// Where each whole instance is determined and nets have ranks, each reading gives each output pin one bit, and two readings that
/// have the known bits give a pin the same bit where they are the same at the observed nets of lower rank.
pub fn ranked_nets_have_drives()
    ensures { RankedNetsHaveDrives }
{}

/// Such a circuit has exactly one solution, for any bits of the inputs and holds, where all its gates are observed.
pub fn ranked_nets_have_one_solution()
    ensures { RankedNetsHaveOneSolution }
{}

/// So it has where each whole instance is determined and the arcs have no cycle.
pub fn acyclic_nets_have_one_solution()
    ensures { AcyclicNetsHaveOneSolution }
{}
