//! The nets of a cell alone, in a larger netlist.

ghost use Rattle.placed_cells.specs.Above.{InstancesAreShifted, InstancesAreTied, NetsAboveAreApart};

/// Where each instance card has a net for each port and no port named as a supply is tied to another net, it is so at each
/// instance of the unrolled cell.
pub fn instances_are_tied()
    ensures { InstancesAreTied }
{}

/// Such an instance is its cell alone, shifted: supplies stay, ports are at the nets to which they are tied, and own nets at a
/// distance.
pub fn instances_are_shifted()
    ensures { InstancesAreShifted }
{}

/// Where the cell names no global net, two of its nets are one net above only where both are supplies or ports.
pub fn nets_above_are_apart()
    ensures { NetsAboveAreApart }
{}
