//! The flat nets of the ports of the whole.

ghost use Rattle.std.specs.Prelude.{◌≡◌, ◌<◌, ◌≤◌, ◌+◌, filter, is_none, length, map, IfOk};
ghost use Rattle.net_places.specs.Ports.{IsNumbered, net_behind, net_by, supply_value};
ghost use Rattle.net_tables.specs.Tables.{AreNetTables};
ghost use Rattle.vrt_model.specs.CellRules.{supply_of};
ghost use Rattle.vrt_model.specs.declared.design.Design.{Design as DesignValue};
ghost use Rattle.vrt_model.specs.declared.rules.Rules.{Rules as RulesValue};

use net_tables::{CellNet, NetTables, find_net};
use std::alloc::Global;
use vrt_model::{Net, NoMemory, Seq, Text};

/// The value of the supply that a net of a cell is, if it is one.
fn value_of(net: CellNet) -> Option<bool>
    ensures { result ≡ supply_value net }
{
    match net {
        CellNet::Supply(value) => Some(value),
        CellNet::Port(_) => None,
        CellNet::Global(_) => None,
        CellNet::Own(_) => None,
    }
}

/// The value of the supply that a name in a cell is, if it is one.
fn supply_at(tables: &NetTables, cell: usize, name: &[u8]) -> Option<bool>
    ensures { (design : DesignValue) (rules : RulesValue) → AreNetTables design rules tables.now → cell < length design.cells → result ≡ supply_of rules name.now }
{
    value_of(find_net(tables, cell, name))
}

/// The flat net of a port: a supply, or else the next net.
fn port_net(supply: Option<bool>, next: u32) -> Net
    ensures { result.0 ≡ net_by supply next }
{
    match supply {
        Some(value) => if value { Net(1) } else { Net(0) },
        None => Net(next),
    }
}

/// The next net behind a port.
fn next_net(supply: Option<bool>, next: u32) -> u32
    requires { next < 4294967295 }
    ensures { result ≡ net_behind supply next }
{
    if supply.is_some() { next } else { next + 1 }
}

/// The nets of ports, and the flat net behind them.
#[derive(Drop)]
pub(crate) struct PortNets {
    /// For each port its flat net.
    pub nets: Seq<Net>,
    /// The flat net behind them.
    pub next: u32,
}

/// The flat nets of the ports of a cell as a whole: those that are supplies by their names, and the others one behind the
/// other.
pub(crate) fn port_nets(
    alloc: Global,
    tables: &NetTables,
    cell: usize,
    names: &[Text],
) -> Result<PortNets, NoMemory>
    requires { length names.now ≤ 4096 }
    ensures { IfOk result (λ ports. (design : DesignValue) (rules : RulesValue) → AreNetTables design rules tables.now → cell < length design.cells → IsNumbered rules names.now ports.nets ports.next) }
{
    let mut nets = Seq::new(alloc);
    let mut next = 2u32;
    let mut left = names;
    'names: while let Some((name, behind)) = left.split_first() {
        let supply = supply_at(tables, cell, name.as_bytes());
        nets.append(port_net(supply, next))?;
        next = next_net(supply, next);
        left = behind;
    }
    Ok(PortNets { nets, next })
}
