//! The nets of output ports.

ghost use Rattle.std.specs.Prelude.{◌≡◌, ◌++◌, [], IfOk, OnOk, filter_map};
ghost use Rattle.std.specs.List.{cons_option};
ghost use Rattle.port_drives.specs.Ports.{AreOutputNetsOf, output_net};

use phase_ports::{Port, output_signal, ports_by};
use std::alloc::Global;
use vrt_model::{Net, NoMemory, Pairing, Seq};

/// The net of a port, where it is an output.
fn output_net(port: Port) -> Option<Net>
    ensures { result ≡ output_net port }
{
    match output_signal(port.role) {
        Some(_) => Some(Net(port.net)),
        None => None,
    }
}

/// Adds a net, if there is one.
fn add_net(nets: &mut Seq<Net>, net: Option<Net>) -> Result<(), NoMemory>
    ensures { OnOk result (nets.new ≡ nets.old ++ cons_option net []) }
{
    let Some(net) = net else {
        return Ok(());
    };
    nets.append(net)
}

/// The nets of those of some ports that are outputs.
#[tactic(auto, using(crate::proofs::NetLaws::pushed))]
fn nets_of(alloc: Global, ports: &[Port]) -> Result<Seq<Net>, NoMemory>
    ensures { IfOk result (λ nets. nets ≡ filter_map output_net ports.now) }
{
    let mut nets = Seq::new(alloc);
    let mut rest = ports;
    'ports: while let Some((port, behind)) = rest.split_first() {
        let net = output_net(*port);
        add_net(&mut nets, net)?;
        rest = behind;
    }
    Ok(nets)
}

/// The nets of the output ports of a cell with this pairing, in port order.
pub fn output_nets(alloc: Global, pairing: &Pairing) -> Result<Seq<Net>, NoMemory>
    ensures { IfOk result (AreOutputNetsOf pairing.now) }
{
    let ports = ports_by(alloc, pairing.ports.as_slice())?;
    nets_of(alloc, ports.as_slice())
}
