//! Flat circuits. Nets 0 and 1 are the supplies.

ghost use Rattle.vrt_model.specs.Inputs.{AreRules, IsDesign};

use flatten::{FlatFault, flat, sizes, structure};
use hierarchy::order;
use row_script::{Page, number};
use vrt_model::{
    Circuit, Design, Device, FlatInstance, FlatNet, Hold, HoldEnd, Kind, NetKind, Pairing,
    PortRole, Rules, Seq,
};

/// What gives a net its value.
fn kind_word(kind: NetKind) -> &'static str {
    match kind {
        NetKind::Supply(false) => " low",
        NetKind::Supply(true) => " high",
        NetKind::Clock(_) => " clock",
        NetKind::Input => " input",
        NetKind::Plain => " plain",
    }
}

/// The word of a kind of devices.
fn device_word(kind: Kind) -> &'static str {
    match kind {
        Kind::N => " n",
        Kind::P => " p",
    }
}

/// Tells nets.
fn tell_nets(page: &mut Page, nets: &[FlatNet]) {
    for net in nets {
        page.word(", ");
        page.name(net.name.as_bytes());
        page.word(kind_word(net.kind));
    }
}

/// Tells a device with its drain, gate and source, its level, and whether it is a keeper.
fn tell_device(page: &mut Page, device: &Device) {
    page.word(", ");
    page.name(device.name.as_bytes());
    page.word(device_word(device.kind));
    page.behind_blank(device.left.0);
    page.behind_blank(device.gate.0);
    page.behind_blank(device.right.0);
    page.word(" level");
    page.behind_blank(device.level as u32);
    page.word(" keeper ");
    page.bit(device.keeper);
}

/// Tells devices.
fn tell_devices(page: &mut Page, devices: &[Device]) {
    for device in devices {
        tell_device(page, device);
    }
}

/// Tells instances, each with its cell and the nets of its ports.
fn tell_instances(page: &mut Page, instances: &[FlatInstance]) {
    for instance in instances {
        page.word(", ");
        page.name(instance.path.as_bytes());
        page.word(" of cell");
        page.behind_blank(instance.cell);
        page.word(" at");
        for net in instance.ports.as_slice() {
            page.behind_blank(net.0);
        }
    }
}

/// Tells the latch element to which a hold leads: of an instance, or of the cell itself.
fn tell_element(page: &mut Page, element: &[u8], instance: Option<u32>) {
    page.name(element);
    if let Some(number) = instance {
        page.word(" of instance");
        page.behind_blank(number);
    }
}

/// Tells where a hold leads.
fn tell_end(page: &mut Page, end: &HoldEnd) {
    match end {
        HoldEnd::Own(net) => {
            page.word("net");
            page.behind_blank(net.0);
        }
        HoldEnd::Latch { instance, element } => tell_element(page, element.as_bytes(), *instance),
    }
}

/// Tells a hold: its net, its size, where it leads, whether it is inverted, and for how many phases it has a constant.
fn tell_hold(page: &mut Page, hold: &Hold) {
    page.word(", hold");
    page.behind_blank(hold.net.0);
    page.word(" size");
    page.behind_blank(hold.size as u32);
    page.word(" to ");
    tell_end(page, &hold.end);
    page.word(" inverted ");
    page.bit(hold.inverted);
    page.word(" constants ");
    page.display(&hold.enters.len());
}

/// Tells holds.
fn tell_holds(page: &mut Page, holds: &[Hold]) {
    for hold in holds {
        tell_hold(page, hold);
    }
}

/// Tells the nets, the devices, the instances and the holds of a circuit.
fn tell_circuit(page: &mut Page, circuit: &Circuit) {
    page.count(circuit.nets.len(), " nets, ");
    page.count(circuit.devices.len(), " devices");
    tell_nets(page, circuit.nets.as_slice());
    tell_devices(page, circuit.devices.as_slice());
    tell_instances(page, circuit.instances.as_slice());
    tell_holds(page, circuit.holds.as_slice());
}

/// The name that a fault has.
fn name_of(fault: &FlatFault) -> &[u8] {
    match fault {
        FlatFault::DeviceModel { model } => model.as_bytes(),
        FlatFault::SupplyTie { path } => path.as_bytes(),
        _ => &[],
    }
}

/// The role of a port: `input=SIGNAL`, `output=SIGNAL` or `supply=BIT`.
fn role(word: &str) -> Option<PortRole> {
    let (kind, of) = word.split_once('=')?;
    match kind {
        "input" => Some(PortRole::Input(number(of))),
        "output" => Some(PortRole::Output(number(of))),
        "supply" => Some(PortRole::Supply(number(of) == 1)),
        _ => None,
    }
}

/// Adds the role of a port.
fn add_role(page: &mut Page, ports: &mut Seq<PortRole>, role: PortRole) {
    if ports.push(role).is_err() {
        page.word("memory");
    }
}

/// Adds the roles of ports.
fn add_roles(page: &mut Page, ports: &mut Seq<PortRole>, words: &str) {
    for word in words.split(' ') {
        match role(word) {
            Some(role) => add_role(page, ports, role),
            None => page.word("no such role"),
        }
    }
}

/// The same where the ports have the roles of a pairing.
fn with_pairing(page: &mut Page, design: &Design, rules: &Rules, pairing: &Pairing)
    requires netlist { IsDesign design.now }
    requires ruled { AreRules rules.now }
{
    if design.cells.is_empty() {
        return page.word("no cell");
    }
    match order(page.alloc(), design, rules) {
        Ok(_) => match flat(page.alloc(), design, rules, 0, pairing) {
            Ok(circuit) => tell_circuit(page, &circuit),
            Err(fault) => page.fault(&fault, name_of(&fault)),
        },
        Err(_) => page.word("cells without an order"),
    }
}

/// Tells the circuit of the first cell, where the ports have these roles, or why it has none.
pub(crate) fn tell(page: &mut Page, design: &Design, rules: &Rules, words: &str)
    requires netlist { IsDesign design.now }
    requires ruled { AreRules rules.now }
{
    let mut pairing = Pairing {
        model: 0,
        ports: Seq::new(page.alloc()),
        clocked: Seq::new(page.alloc()),
    };
    add_roles(page, &mut pairing.ports, words);
    with_pairing(page, design, rules, &pairing);
}

/// Tells what stands in the way of the circuit of the first cell.
pub(crate) fn tell_structure(page: &mut Page, design: &Design, rules: &Rules)
    requires { IsDesign design.now }
{
    if design.cells.is_empty() {
        return page.word("no cell");
    }
    match structure(page.alloc(), design, rules, 0) {
        Ok(()) => page.word("taken"),
        Err(fault) => page.fault(&fault, name_of(&fault)),
    }
}

/// Tells how many nets, devices and instances the first cell has.
pub(crate) fn tell_sizes(page: &mut Page, design: &Design, rules: &Rules)
    requires { IsDesign design.now }
{
    if design.cells.is_empty() {
        return page.word("no cell");
    }
    let counts = sizes(design, rules, 0);
    page.display(&counts.nets);
    page.word(" nets, ");
    page.display(&counts.devices);
    page.word(" devices, ");
    page.display(&counts.instances);
    page.word(" instances");
}
