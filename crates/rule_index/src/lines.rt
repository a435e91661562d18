//! The places of the rules of each kind, by the cells that they are of.

ghost use Rattle.std.specs.Prelude.{OnOk};
ghost use Rattle.rule_index.specs.Lines.{AreBlank, AreChargeLines, AreDeviceLines, AreLines, ArePortLines, AreBlankCharges, AreBlankDevices, AreBlankPorts};

use crate::by_cell::ByCell;
use std::alloc::Global;
use vrt_model::{NoMemory, Rules};

/// Of rules that speak of transistors of cells, for each kind the places.
pub struct DeviceLines {
    /// The rules that give transistors a level.
    pub strengths: ByCell,
    /// The rules that name keepers.
    pub keepers: ByCell,
}

/// By hand, so that letting go of one is a call.
impl Drop for DeviceLines {
    fn drop(self) {
        let DeviceLines {
            strengths: _strengths,
            keepers: _keepers,
        } = self;
    }
}

/// Of rules that speak of ports of cells, for each kind the places.
pub struct PortLines {
    /// The rules that name ports that carry clocks.
    pub clockports: ByCell,
    /// The rules that name the signals of ports: `port` lines.
    pub signals: ByCell,
    /// The rules that say in which phases outputs are compared.
    pub observes: ByCell,
    /// The rules that say what holds of inputs.
    pub assumes: ByCell,
}

/// By hand, so that letting go of one is a call.
impl Drop for PortLines {
    fn drop(self) {
        let PortLines {
            clockports: _clockports,
            signals: _signals,
            observes: _observes,
            assumes: _assumes,
        } = self;
    }
}

/// Of rules that speak of nets of cells that keep their charge, for each kind the places.
pub struct ChargeLines {
    /// The rules that name nets that keep their charge.
    pub holds: ByCell,
    /// The rules that name the latch elements of nets.
    pub matches: ByCell,
    /// The rules that name the latch elements of instances.
    pub instance_matches: ByCell,
    /// The rules that give charges a bit as a phase begins.
    pub enters: ByCell,
}

/// By hand, so that letting go of one is a call.
impl Drop for ChargeLines {
    fn drop(self) {
        let ChargeLines {
            holds: _holds,
            matches: _matches,
            instance_matches: _instance_matches,
            enters: _enters,
        } = self;
    }
}

/// For each kind of rules that are of cells, the places of the rules in the list of `Rules`.
pub struct RuleLines {
    /// The rules that name the models of cells: `pair` lines.
    pub pairs: ByCell,
    /// Rules that speak of transistors.
    pub devices: DeviceLines,
    /// Rules that speak of ports.
    pub ports: PortLines,
    /// Rules that speak of nets that keep their charge.
    pub charges: ChargeLines,
}

/// By hand, so that letting go of one is a call.
impl Drop for RuleLines {
    fn drop(self) {
        let RuleLines {
            pairs: _pairs,
            devices: _devices,
            ports: _ports,
            charges: _charges,
        } = self;
    }
}

impl DeviceLines {
    /// With no rules. It takes no memory.
    fn new(alloc: Global) -> Self
        ensures { AreBlankDevices result }
    {
        DeviceLines {
            strengths: ByCell::new(alloc),
            keepers: ByCell::new(alloc),
        }
    }

    /// Adds the places of rules, where there is none yet.
    fn fill(&mut self, rules: &Rules) -> Result<(), NoMemory>
        requires { AreBlankDevices self.old }
        ensures { OnOk result (AreDeviceLines rules.now self.new) }
    {
        self.strengths.fill(rules.strengths.as_slice())?;
        self.keepers.fill(rules.keepers.as_slice())?;
        Ok(())
    }
}

impl PortLines {
    /// With no rules. It takes no memory.
    fn new(alloc: Global) -> Self
        ensures { AreBlankPorts result }
    {
        PortLines {
            clockports: ByCell::new(alloc),
            signals: ByCell::new(alloc),
            observes: ByCell::new(alloc),
            assumes: ByCell::new(alloc),
        }
    }

    /// Adds the places of rules, where there is none yet.
    fn fill(&mut self, rules: &Rules) -> Result<(), NoMemory>
        requires { AreBlankPorts self.old }
        ensures { OnOk result (ArePortLines rules.now self.new) }
    {
        self.clockports.fill(rules.clockports.as_slice())?;
        self.signals.fill(rules.ports.as_slice())?;
        self.observes.fill(rules.observes.as_slice())?;
        self.assumes.fill(rules.assumes.as_slice())?;
        Ok(())
    }
}

impl ChargeLines {
    /// With no rules. It takes no memory.
    fn new(alloc: Global) -> Self
        ensures { AreBlankCharges result }
    {
        ChargeLines {
            holds: ByCell::new(alloc),
            matches: ByCell::new(alloc),
            instance_matches: ByCell::new(alloc),
            enters: ByCell::new(alloc),
        }
    }

    /// Adds the places of rules, where there is none yet.
    fn fill(&mut self, rules: &Rules) -> Result<(), NoMemory>
        requires { AreBlankCharges self.old }
        ensures { OnOk result (AreChargeLines rules.now self.new) }
    {
        self.holds.fill(rules.holds.as_slice())?;
        self.matches.fill(rules.matches.as_slice())?;
        self.instance_matches
            .fill(rules.instance_matches.as_slice())?;
        self.enters.fill(rules.enters.as_slice())?;
        Ok(())
    }
}

impl RuleLines {
    /// With no rules. It takes no memory.
    pub(crate) fn new(alloc: Global) -> Self
        ensures { AreBlank result }
    {
        RuleLines {
            pairs: ByCell::new(alloc),
            devices: DeviceLines::new(alloc),
            ports: PortLines::new(alloc),
            charges: ChargeLines::new(alloc),
        }
    }

    /// Adds the places of rules, where there is none yet.
    pub(crate) fn fill(&mut self, rules: &Rules) -> Result<(), NoMemory>
        requires { AreBlank self.old }
        ensures { OnOk result (AreLines rules.now self.new) }
    {
        self.pairs.fill(rules.pairs.as_slice())?;
        self.devices.fill(rules)?;
        self.ports.fill(rules)?;
        self.charges.fill(rules)?;
        Ok(())
    }
}
