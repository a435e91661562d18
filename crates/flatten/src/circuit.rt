//! The flat circuit.

ghost use Rattle.std.specs.Prelude.{◌≡◌, ◌<◌, ◌≤◌, List, IfOk, length};
ghost use Rattle.flatten.specs.Circuits.{FlatGives, IsFlatCircuit};
ghost use Rattle.flatten.specs.Structures.{IsStructured};
ghost use Rattle.net_places.specs.Links.{IsUnrolled};
ghost use Rattle.net_places.specs.Whole.{whole_of};
ghost use Rattle.net_tables.specs.Tables.{AreNetTables};
ghost use Rattle.rule_index.specs.Tables.{AreIndexed};
ghost use Rattle.vrt_model.specs.FlatCircuit.{flat_circuit, flat_nets};
ghost use Rattle.vrt_model.specs.Hierarchy.{AreHoldNets};
ghost use Rattle.vrt_model.specs.Inputs.{AreRules, IsDesign};
ghost use Rattle.vrt_model.specs.Unsupported.{top_before};
ghost use Rattle.vrt_model.specs.declared.pairing.PortRole.{PortRole as RoleValue};

use crate::faults::FlatFault;
use crate::nets::nets;
use crate::structures::structure_with;
use flat_devices::flat_devices;
use flat_holds::flat_holds;
use net_places::{Unrolled, flat_instances, unroll};
use net_tables::{NetTables, net_tables};
use rule_index::{RuleIndex, index_of};
use std::alloc::Global;
use vrt_model::{Circuit, Design, NoMemory, Pairing, Rules, Seq};

/// The circuit of an unrolled cell: its nets, and what stands at them.
fn circuit_of(
    alloc: Global,
    index: &RuleIndex,
    tables: &NetTables,
    design: &Design,
    rules: &Rules,
    unrolled: &Unrolled,
    cell: u32,
    pairing: &Pairing,
) -> Result<Circuit, NoMemory>
    requires netlist { IsDesign design.now }
    requires names { AreHoldNets design.now rules.now }
    requires indexed { AreIndexed design.now rules.now index.now }
    requires tables { AreNetTables design.now rules.now tables.now }
    requires there { cell < length design.now.cells }
    requires unrolled { (roles : List RoleValue) → IsUnrolled (whole_of design.now rules.now cell roles) unrolled.now }
    requires small { length (flat_nets (top_before design.now rules.now cell)) ≤ 20000 }
    ensures { IfOk result (λ circuit. circuit ≡ flat_circuit design.now rules.now cell pairing.now) }
{
    let nets = nets(alloc, index, tables, design, rules, unrolled, cell, pairing)?;
    let devices = flat_devices(alloc, index, design, rules, tables, unrolled)?;
    let instances = flat_instances(alloc, unrolled)?;
    let count = nets.len() as u32;
    let holds = flat_holds(alloc, index, design, rules, tables, unrolled, cell, count)?;
    Ok(Circuit {
        nets,
        devices,
        holds,
        instances,
        wholes: Seq::new(alloc),
        source: rules.source_level(),
    })
}

/// The flat circuit of an unrolled cell in whose way nothing stands, as `structure_with` finds: want of memory is the only refusal.
pub fn unrolled_circuit(
    alloc: Global,
    index: &RuleIndex,
    tables: &NetTables,
    design: &Design,
    rules: &Rules,
    unrolled: &Unrolled,
    cell: u32,
    pairing: &Pairing,
) -> Result<Circuit, NoMemory>
    requires netlist { IsDesign design.now }
    requires ruled { AreRules rules.now }
    requires names { AreHoldNets design.now rules.now }
    requires indexed { AreIndexed design.now rules.now index.now }
    requires tables { AreNetTables design.now rules.now tables.now }
    requires there { cell < length design.now.cells }
    requires structured { IsStructured (top_before design.now rules.now cell) }
    requires unrolled { (roles : List RoleValue) → IsUnrolled (whole_of design.now rules.now cell roles) unrolled.now }
    ensures { IfOk result (IsFlatCircuit design.now rules.now cell pairing.now) }
{
    circuit_of(alloc, index, tables, design, rules, unrolled, cell, pairing)
}

/// A cell in whose way nothing stands, unrolled.
pub fn unroll_cell(
    alloc: Global,
    tables: &NetTables,
    design: &Design,
    rules: &Rules,
    cell: u32,
) -> Result<Unrolled, NoMemory>
    requires netlist { IsDesign design.now }
    requires tables { AreNetTables design.now rules.now tables.now }
    requires there { cell < length design.now.cells }
    requires structured { IsStructured (top_before design.now rules.now cell) }
    ensures { IfOk result (λ unrolled. (roles : List RoleValue) → IsUnrolled (whole_of design.now rules.now cell roles) unrolled) }
{
    unroll(alloc, design, rules, tables, cell)
}

/// The flat circuit of a cell in whose way nothing stands.
fn structured_circuit(
    alloc: Global,
    index: &RuleIndex,
    tables: &NetTables,
    design: &Design,
    rules: &Rules,
    cell: u32,
    pairing: &Pairing,
) -> Result<Circuit, NoMemory>
    requires netlist { IsDesign design.now }
    requires ruled { AreRules rules.now }
    requires names { AreHoldNets design.now rules.now }
    requires indexed { AreIndexed design.now rules.now index.now }
    requires tables { AreNetTables design.now rules.now tables.now }
    requires there { cell < length design.now.cells }
    requires structured { IsStructured (top_before design.now rules.now cell) }
    ensures { IfOk result (IsFlatCircuit design.now rules.now cell pairing.now) }
{
    let unrolled = unroll_cell(alloc, tables, design, rules, cell)?;
    unrolled_circuit(
        alloc, index, tables, design, rules, &unrolled, cell, pairing,
    )
}

/// The flat circuit of a cell by the tables of its netlist and rules: the same as `flat`, in time and memory in proportion
/// to the flat circuit and, for each instance in it, to the rules of the instance's cell; for each hold also to the `match`
/// and `enter` lines of its cell, and to the `match` lines of the cells around it.
pub fn flat_with(
    alloc: Global,
    index: &RuleIndex,
    tables: &NetTables,
    design: &Design,
    rules: &Rules,
    cell: u32,
    pairing: &Pairing,
) -> Result<Circuit, FlatFault>
    requires netlist { IsDesign design.now }
    requires ruled { AreRules rules.now }
    requires names { AreHoldNets design.now rules.now }
    requires indexed { AreIndexed design.now rules.now index.now }
    requires tables { AreNetTables design.now rules.now tables.now }
    requires there { cell < length design.now.cells }
    ensures { FlatGives design.now rules.now cell pairing.now result }
{
    match structure_with(alloc, index, design, rules, cell) {
        Ok(()) => match structured_circuit(alloc, index, tables, design, rules, cell, pairing) {
            Ok(circuit) => Ok(circuit),
            Err(_) => Err(FlatFault::NoMemory),
        },
        Err(fault) => Err(fault),
    }
}

/// The flat circuit of a cell whose ports have the roles of the pairing: its netlist with all instances unrolled. Its nets
/// are the two supplies, the other ports, the global nets that a card names, and the own nets of the cell and of each
/// instance in it by their path names; its devices are those of the cards at each place, its instances all places but the
/// cell itself. A net on which `hold` rules fall has the hold of the outermost place, with the latch element to which its
/// `match` lines lead up. It is a condition that each `hold` rule is of a net of its cell, as where `order` of `hierarchy`
/// refuses nothing. The faults are those of `structure`, tested in the same order.
pub fn flat(
    alloc: Global,
    design: &Design,
    rules: &Rules,
    cell: u32,
    pairing: &Pairing,
) -> Result<Circuit, FlatFault>
    requires netlist { IsDesign design.now }
    requires ruled { AreRules rules.now }
    requires names { AreHoldNets design.now rules.now }
    requires there { cell < length design.now.cells }
    ensures { FlatGives design.now rules.now cell pairing.now result }
{
    let index = index_of(alloc, design, rules)?;
    let tables = net_tables(alloc, design, rules)?;
    flat_with(alloc, &index, &tables, design, rules, cell, pairing)
}
