//! The pins of an instance that is left whole.

ghost use Rattle.std.specs.Prelude.{◌≡◌, ◌+◌, ◌++◌, [], List, IfOk, OnOk};
ghost use Rattle.std.specs.List.{cons_option};
ghost use Rattle.whole_circuits.specs.Pins.{IsAtPorts, AreDrivesOf, AreObserved, drive_at, driven_pin, input_pin, next_output};
ghost use Rattle.vrt_model.specs.Comparison.{Comparison};
ghost use Rattle.vrt_model.specs.Unrolled.{Place as FlatPlace};
ghost use Rattle.vrt_model.specs.WholeInstances.{driven_pins as all_driven, input_pins as all_inputs};
ghost use Rattle.vrt_model.specs.declared.whole.CellFacts.{CellFacts as FactsValue};

use known_nets::is_marked;
use phase_ports::{Port, input_signal, output_signal};
use std::alloc::Global;
use vrt_model::{Drive, Net, NoMemory, Seq, WholePin};

/// The pin of a port at a net, if it is an input.
fn input_pin(observed: &[bool], port: Port, net: Net) -> Option<WholePin>
    ensures { result ≡ input_pin observed.now port net }
{
    match input_signal(port.role) {
        Some(signal) => Some(WholePin {
            net,
            signal,
            drive: Drive::Soft,
            observed: is_marked(observed, port.net as usize),
        }),
        None => None,
    }
}

/// Adds a pin, if there is one.
fn add_pin(pins: &mut Seq<WholePin>, pin: Option<WholePin>) -> Result<(), NoMemory>
    ensures { OnOk result (pins.new ≡ pins.old ++ cons_option pin []) }
{
    let Some(pin) = pin else {
        return Ok(());
    };
    pins.append(pin)
}

/// The input pins of an instance of a cell, in the order of the ports, each marked where its port is observed in the cell.
#[tactic(auto, using(crate::proofs::PinLaws::pushed))]
pub fn input_pins(
    alloc: Global,
    ports: &[Port],
    nets: &[Net],
    observed: &[bool],
) -> Result<Seq<WholePin>, NoMemory>
    ensures { IfOk result (λ pins. (k : Comparison) (at : FlatPlace) → IsAtPorts k at ports.now nets.now → AreObserved k observed.now → pins ≡ all_inputs k at) }
{
    let mut pins = Seq::new(alloc);
    let mut ports_left = ports;
    let mut nets_left = nets;
    'ports: while let (Some((port, ports)), Some((net, nets))) = (
        ports_left.split_first(),
        nets_left.split_first(),
    ) {
        let pin = input_pin(observed, *port, *net);
        add_pin(&mut pins, pin)?;
        ports_left = ports;
        nets_left = nets;
    }
    Ok(pins)
}

/// The drive at a place of a list, soft past its end.
fn drive_at(drives: &[Drive], at: usize) -> Drive
    ensures { result ≡ drive_at drives.now at }
{
    match drives.get(at) {
        Some(drive) => *drive,
        None => Drive::Soft,
    }
}

/// The pin of a port at a net, if it is an output, where so many outputs stand before it.
fn driven_pin(drives: &[Drive], before: usize, port: Port, net: Net) -> Option<WholePin>
    ensures { result ≡ driven_pin drives.now before port net }
{
    match output_signal(port.role) {
        Some(signal) => Some(WholePin {
            net,
            signal,
            drive: drive_at(drives, before),
            observed: false,
        }),
        None => None,
    }
}

/// How many outputs stand before the port behind one.
fn next_output(before: usize, port: Port) -> Result<usize, NoMemory>
    ensures { IfOk result (λ next. next ≡ next_output before port) }
{
    match output_signal(port.role) {
        Some(_) => match before.checked_add(1) {
            Some(next) => Ok(next),
            None => Err(NoMemory),
        },
        None => Ok(before),
    }
}

/// The output pins of an instance of a cell, in the order of the ports, with the drives that are told of the cell's outputs.
#[tactic(auto, using(crate::proofs::PinLaws::pushed))]
pub fn driven_pins(
    alloc: Global,
    ports: &[Port],
    nets: &[Net],
    drives: &[Drive],
) -> Result<Seq<WholePin>, NoMemory>
    ensures { IfOk result (λ pins. (facts : List FactsValue) (k : Comparison) (at : FlatPlace) → IsAtPorts k at ports.now nets.now → AreDrivesOf facts at.cell drives.now → pins ≡ all_driven facts k at) }
{
    let mut pins = Seq::new(alloc);
    let mut before = 0;
    let mut ports_left = ports;
    let mut nets_left = nets;
    'ports: while let (Some((port, ports)), Some((net, nets))) = (
        ports_left.split_first(),
        nets_left.split_first(),
    ) {
        let pin = driven_pin(drives, before, *port, *net);
        add_pin(&mut pins, pin)?;
        before = next_output(before, *port)?;
        ports_left = ports;
        nets_left = nets;
    }
    Ok(pins)
}
