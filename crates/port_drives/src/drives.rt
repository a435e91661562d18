//! The drives of the output ports of a cell, as its facts have them.

ghost use Rattle.std.specs.Prelude.{◌≡◌, ◌<◌, IfOk, length};
ghost use Rattle.output_levels.specs.PartLevels.{level_at};
ghost use Rattle.port_drives.specs.Drives.{ArePortDrives, port_drive};
ghost use Rattle.vrt_model.specs.Lists.{At};
ghost use Rattle.vrt_model.specs.declared.ids.Net.{Net as NetValue};

use crate::outputs::{ToldOutput, told_outputs, whole_drive};
use drive_levels::{PortLevels, drive_of};
use known_nets::is_marked;
use std::alloc::Global;
use vrt_model::{CellFacts, Circuit, Drive, NoMemory, Seq};

/// The level of the port at a place.
fn port_level(ports: &PortLevels, at: usize) -> Option<u8>
    ensures { result ≡ level_at ports.now.levels.items at }
{
    match ports.levels.get(at) {
        Some(level) => *level,
        None => None,
    }
}

/// The drive of the port at a place.
fn port_drive(
    circuit: &Circuit,
    told: &[ToldOutput],
    lone: &[bool],
    ports: &PortLevels,
    at: usize,
) -> Drive
    requires { at < length ports.now.nets }
    ensures { (n : NetValue) → At ports.now.nets at n → result ≡ port_drive circuit.now told.now lone.now ports.now at n.0 }
{
    let net = ports.nets.as_slice()[at];
    drive_of(
        is_marked(lone, at),
        whole_drive(circuit, told, net),
        port_level(ports, at),
    )
}

/// The drives of the output ports of an equal cell, in port order: of each that is alone inside the cell the drive of the whole output that
/// stands at its net in the checked circuit, where it meets gates alone; else the level that its net has in all phases; and soft of all
/// others. `facts` are known of the cells below, `lone` is what `lone_ports` gives for the flat circuit, and `ports` has the levels.
pub fn port_drives(
    alloc: Global,
    circuit: &Circuit,
    facts: &[CellFacts],
    lone: &[bool],
    ports: &PortLevels,
) -> Result<Seq<Drive>, NoMemory>
    ensures { IfOk result (ArePortDrives circuit.now facts.now lone.now ports.now) }
{
    let told = told_outputs(alloc, circuit, facts)?;
    let mut drives = Seq::new(alloc);
    for at in 0..ports.nets.len() {
        drives.append(port_drive(circuit, told.as_slice(), lone, ports, at))?;
    }
    Ok(drives)
}
