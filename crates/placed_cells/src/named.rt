//! What the rules name.

ghost use Rattle.placed_cells.specs.Named.{AssumedPortsAreThere, HoldNetsAreThere};

/// Where no name in the rules is missing, each `hold` rule is on a net of its cell.
pub fn hold_nets_are_there()
    ensures { HoldNetsAreThere }
{}

/// And each name in an `assume` of a cell is that of a port of it.
pub fn assumed_ports_are_there()
    ensures { AssumedPortsAreThere }
{}
