//! What a SPICE netlist says.

use crate::{Seq, Text};

/// The two kinds of a transistor.
#[derive(Clone, Copy, Debug, PartialEq, Eq)]
pub enum Kind {
    /// An n-transistor: it conducts where its gate is 1.
    N,
    /// A p-transistor: it conducts where its gate is 0.
    P,
}

/// The cells, global nets and device models of a netlist, in the order of their cards.
pub struct Design {
    /// The cells in the order of their `.subckt` cards, at most 4,096; no two have one name.
    pub cells: Seq<Cell>,
    /// The names on `.global` cards, each once, where it stands first. All names of a netlist are in lower case.
    pub globals: Seq<Text>,
    /// The `.model` cards of type `nmos` and `pmos`. Of two of one name the first counts.
    pub models: Seq<ModelCard>,
}

/// By hand, so that letting go of one is a call.
impl Drop for Design {
    fn drop(self) {
        let Design {
            cells: _cells,
            globals: _globals,
            models: _models,
        } = self;
    }
}

/// A `.model` card of a transistor.
pub struct ModelCard {
    /// The name of the device model, in lower case.
    pub name: Text,
    /// `N` for the type `nmos`, `P` for `pmos`.
    pub kind: Kind,
}

/// By hand, so that letting go of one is a call.
impl Drop for ModelCard {
    fn drop(self) {
        let ModelCard {
            name: _name,
            kind: _kind,
        } = self;
    }
}

/// A `.subckt` and the cards in it.
pub struct Cell {
    /// The line of the `.subckt` card, from 1.
    pub line: u32,
    /// The name of the cell, in lower case. The verdict line begins with it: `cell NAME`.
    pub name: Text,
    /// The names of the ports in the order of the card, at most 4,096; none stands twice.
    pub ports: Seq<Text>,
    /// The transistors of the cell itself, in the order of their cards.
    pub devices: Seq<DeviceCard>,
    /// The instances of other cells, in the order of their cards.
    pub instances: Seq<InstanceCard>,
}

/// By hand, so that letting go of one is a call.
impl Drop for Cell {
    fn drop(self) {
        let Cell {
            line: _line,
            name: _name,
            ports: _ports,
            devices: _devices,
            instances: _instances,
        } = self;
    }
}

/// A transistor card. The bulk is kept, and nothing reads it.
pub struct DeviceCard {
    /// The first line of the card, from 1.
    pub line: u32,
    /// The name of the transistor, its whole first word in lower case, as `m1`.
    pub name: Text,
    /// The name of the net at the drain, the first after the name (SPICE order: drain, gate, source, bulk).
    pub drain: Text,
    /// The name of the net at the gate.
    pub gate: Text,
    /// The name of the net at the source.
    pub source: Text,
    /// The name of the net at the bulk. Nothing reads it.
    pub bulk: Text,
    /// The name of the device model, which a `device` rule or a `.model` card gives its kind.
    pub model: Text,
}

/// By hand, so that letting go of one is a call.
impl Drop for DeviceCard {
    fn drop(self) {
        let DeviceCard {
            line: _line,
            name: _name,
            drain: _drain,
            gate: _gate,
            source: _source,
            bulk: _bulk,
            model: _model,
        } = self;
    }
}

/// An instance card.
pub struct InstanceCard {
    /// The first line of the card, from 1.
    pub line: u32,
    /// The name of the instance, its whole first word in lower case, as `x1`.
    pub name: Text,
    /// The nets that are tied to the ports of the cell, in the order of the ports.
    pub nets: Seq<Text>,
    /// The name of the cell that is used.
    pub cell: Text,
}

/// By hand, so that letting go of one is a call.
impl Drop for InstanceCard {
    fn drop(self) {
        let InstanceCard {
            line: _line,
            name: _name,
            nets: _nets,
            cell: _cell,
        } = self;
    }
}
