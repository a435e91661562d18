//! Ports and signals of which none is in the way.

ghost use Rattle.paired_ports.specs.Pairable.{InputsAreGiven, PortsHaveRoles, PortsPairApart};

/// Two ports do not pair with one signal.
pub fn ports_pair_apart()
    ensures { PortsPairApart }
{}

/// Each input and clock of the model carries a clock, or is the signal of an input's port.
pub fn inputs_are_given()
    ensures { InputsAreGiven }
{}

/// Each port has one role, a supply exactly where it is named as one, and its clock is declared.
pub fn ports_have_roles()
    ensures { PortsHaveRoles }
{}
