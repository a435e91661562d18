//! The nets of a cell.

ghost use Rattle.std.specs.Prelude.{◌≡◌, []};

use names::Names;
use std::alloc::Global;
use vrt_model::Seq;

/// What a name in a cell is.
#[derive(Clone, Copy)]
pub enum CellNet {
    /// A supply, by its value: 1 for true.
    Supply(bool),
    /// The port at this place of the `.subckt` card, from 0.
    Port(usize),
    /// The global net at this place of the `.global` cards, from 0.
    Global(usize),
    /// The own net of the cell at this place in the order of first mention, from 0.
    Own(usize),
}

/// The nets at a transistor.
#[derive(Clone, Copy)]
pub struct DeviceNets {
    /// The net at the drain.
    pub drain: CellNet,
    /// The net at the gate.
    pub gate: CellNet,
    /// The net at the source.
    pub source: CellNet,
}

/// The cell of an instance, and the nets at its ports.
pub struct InstanceNets {
    /// The number of the cell that is used, from 0 in the order of the `.subckt` cards.
    pub cell: usize,
    /// The nets that are tied to the ports, in their order.
    pub nets: Seq<CellNet>,
}

/// By hand, so that letting go of one is a call.
impl Drop for InstanceNets {
    fn drop(self) {
        let InstanceNets {
            cell: _cell,
            nets: _nets,
        } = self;
    }
}

/// The names of the nets that are a cell's alone.
#[derive(Drop)]
pub struct CellNames {
    /// The ports, in the order of the card.
    pub ports: Names,
    /// The own nets, in the order of first mention: no supplies, ports or global nets.
    pub own: Names,
}

impl CellNames {
    /// With no name. It takes no memory.
    pub(crate) fn new(alloc: Global) -> Self
        ensures ports { result.ports ≡ [] }
        ensures own { result.own ≡ [] }
    {
        CellNames {
            ports: Names::new(alloc),
            own: Names::new(alloc),
        }
    }
}

/// The nets of a cell, and what the names on its cards are.
pub struct CellNets {
    /// The names of its ports and of its own nets.
    pub names: CellNames,
    /// The nets at its transistors, in the order of the cards.
    pub devices: Seq<DeviceNets>,
    /// The nets at its instances, in the order of the cards.
    pub instances: Seq<InstanceNets>,
}

/// By hand, so that letting go of one is a call.
impl Drop for CellNets {
    fn drop(self) {
        let CellNets {
            names: _names,
            devices: _devices,
            instances: _instances,
        } = self;
    }
}
