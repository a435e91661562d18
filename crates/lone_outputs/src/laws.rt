//! What the bits of all phases say together.

ghost use Rattle.lone_outputs.specs.Lone.{LoneNetsAreKept, LonePortsAreAlone};

/// The marks that `keep_lone` leaves say which nets are alone in one phase more.
pub fn lone_nets_are_kept()
    ensures { LoneNetsAreKept }
{}

/// The ports whose nets are alone in all phases are those that are alone inside their cell.
pub fn lone_ports_are_alone()
    ensures { LonePortsAreAlone }
{}
