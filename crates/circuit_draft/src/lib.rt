//! A circuit as it is drawn, net by net and device by device.
#![tactic(auto)]

ghost use Rattle.std.specs.Prelude.{◌≡◌, ◌<◌, ◌^◌, ◌++◌, ◌∷◌, [], length, false, true, IfOk, OnOk, OnErr};
ghost use Rattle.circuit_draft.specs.Drawn.{supplies, HasFifteenLevels, HasNet, HasDevice, HasInverter, HasHold};

use std::alloc::Global;
use vrt_model::{
    Circuit, Device, FlatNet, Hold, HoldEnd, Kind, MOST_SOURCE, Net, NetKind, NoMemory, Seq, Text,
    USUAL_SOURCE,
};

/// The low supply of a drawn circuit.
pub const LOW: Net = Net(0);

/// The high supply of a drawn circuit.
pub const HIGH: Net = Net(1);

/// A circuit to which nets, devices and holds are added. Nets have numbers in the order in which they are added, behind
/// the two supplies, and no names.
#[derive(Drop)]
pub struct Draft {
    /// What is drawn so far. Net 0 is supply 0, and net 1 supply 1.
    pub circuit: Circuit,
    alloc: Global,
}

impl Draft {
    /// With the supplies alone.
    pub fn new(alloc: Global) -> Result<Draft, NoMemory>
        ensures { IfOk result (λ draft. draft.circuit ≡ supplies) }
    {
        let mut draft = Draft {
            circuit: Circuit {
                nets: Seq::new(alloc),
                devices: Seq::new(alloc),
                holds: Seq::new(alloc),
                instances: Seq::new(alloc),
                wholes: Seq::new(alloc),
                source: USUAL_SOURCE,
            },
            alloc,
        };
        draft.net(NetKind::Supply(false))?;
        draft.net(NetKind::Supply(true))?;
        Ok(draft)
    }

    /// Gives the circuit the scale of fifteen levels.
    pub fn widen(&mut self)
        ensures { HasFifteenLevels self.old.circuit self.new.circuit }
    {
        self.circuit.source = MOST_SOURCE;
    }

    /// Adds a net and gives its number.
    pub fn net(&mut self, kind: NetKind) -> Result<Net, NoMemory>
        ensures number { IfOk result (λ net. length self.old.circuit.nets < 2 ^ 32 → net.0 ≡ length self.old.circuit.nets) }
        ensures added { OnOk result (HasNet kind self.old.circuit self.new.circuit) }
        ensures kept { OnErr result (self.new.circuit ≡ self.old.circuit) }
    {
        let number = self.circuit.nets.len().min(u32::MAX as usize) as u32;
        let net = FlatNet {
            name: Text::new(self.alloc),
            kind,
        };
        match self.circuit.nets.push(net) {
            Ok(()) => Ok(Net(number)),
            Err(_) => Err(NoMemory),
        }
    }

    /// Adds a device whose channel joins two nets.
    pub fn device(
        &mut self,
        kind: Kind,
        level: u8,
        gate: Net,
        left: Net,
        right: Net,
    ) -> Result<(), NoMemory>
        ensures added { OnOk result (HasDevice kind level false gate left right self.old.circuit self.new.circuit) }
        ensures kept { OnErr result (self.new.circuit ≡ self.old.circuit) }
    {
        let device = Device {
            name: Text::new(self.alloc),
            kind,
            gate,
            left,
            right,
            level,
            keeper: false,
        };
        match self.circuit.devices.push(device) {
            Ok(()) => Ok(()),
            Err(_) => Err(NoMemory),
        }
    }

    /// Adds a device that is a keeper.
    pub fn keeper(
        &mut self,
        kind: Kind,
        level: u8,
        gate: Net,
        left: Net,
        right: Net,
    ) -> Result<(), NoMemory>
        ensures added { OnOk result (HasDevice kind level true gate left right self.old.circuit self.new.circuit) }
        ensures kept { OnErr result (self.new.circuit ≡ self.old.circuit) }
    {
        let device = Device {
            name: Text::new(self.alloc),
            kind,
            gate,
            left,
            right,
            level,
            keeper: true,
        };
        match self.circuit.devices.push(device) {
            Ok(()) => Ok(()),
            Err(_) => Err(NoMemory),
        }
    }

    /// Adds an inverter from one net to another: a p-device to the high supply, and an n-device to the low one. Where
    /// memory is wanting, the first may be there.
    pub fn inverter(&mut self, from: Net, to: Net) -> Result<(), NoMemory>
        ensures { OnOk result (HasInverter from to self.old.circuit self.new.circuit) }
    {
        self.device(Kind::P, 6, from, to, HIGH)?;
        self.device(Kind::N, 6, from, to, LOW)
    }

    /// Adds a hold that stands for itself.
    pub fn hold(&mut self, net: Net, size: u8) -> Result<(), NoMemory>
        ensures added { OnOk result (HasHold net size self.old.circuit self.new.circuit) }
        ensures kept { OnErr result (self.new.circuit ≡ self.old.circuit) }
    {
        let hold = Hold {
            net,
            size,
            end: HoldEnd::Own(net),
            inverted: false,
            enters: Seq::new(self.alloc),
        };
        match self.circuit.holds.push(hold) {
            Ok(()) => Ok(()),
            Err(_) => Err(NoMemory),
        }
    }
}
