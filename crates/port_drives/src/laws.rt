//! Where the output ports of a cell are, and what is found of the whole outputs at them.

ghost use Rattle.port_drives.specs.Drives.{PortDrivesAreTold};
ghost use Rattle.port_drives.specs.Outputs.{WholeDrivesAreFound};
ghost use Rattle.port_drives.specs.Ports.{OutputNetsAreWithin};

/// The nets of the output ports are nets of the circuit where those of all ports are.
pub fn output_nets_are_within()
    ensures { OutputNetsAreWithin }
{}

/// Over a circuit with some instances left whole, `whole_drive` finds the whole output that meets gates alone.
pub fn whole_drives_are_found()
    ensures { WholeDrivesAreFound }
{}

/// The drives that `port_drives` makes are what the facts of the cell say of its output ports.
pub fn port_drives_are_told()
    ensures { PortDrivesAreTold }
{}
