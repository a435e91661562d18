//! The order in which the cells of a netlist are checked.

ghost use Rattle.std.specs.Prelude.{◌≡◌, ◌⊎◌};
ghost use Rattle.vrt_model.specs.Inputs.{IsDesign};
ghost use Rattle.hierarchy.specs.Names.{missing_of};
ghost use Rattle.hierarchy.specs.Order.{DepthsGive, NamesGive, OrderGives, name_fault};

use crate::HierFault;
use crate::cards::check_cards;
use crate::listing::by_depth;
use crate::lookups::MissingName;
use crate::missing_names::missing_name;
use crate::nested::{check_nesting, inner_cells};
use crate::tables::cell_names;
use nesting::whole_depths;
use std::alloc::Global;
use vrt_model::{Design, Rules, Seq, Text};

/// The depth of each cell, where the instance cards fit and the cells stand in one another as they may.
fn cell_depths(alloc: Global, design: &Design) -> Result<Seq<u32>, HierFault>
    requires { IsDesign design.now }
    ensures { DepthsGive design.now result }
{
    let Ok(names) = cell_names(alloc, design) else {
        return Err(HierFault::NoMemory);
    };
    check_cards(alloc, design, &names)?;
    let Ok(inner) = inner_cells(alloc, design, &names) else {
        return Err(HierFault::NoMemory);
    };
    check_nesting(alloc, design, inner.as_slice())?;
    match whole_depths(alloc, inner.as_slice()) {
        Ok(depths) => Ok(depths),
        Err(_) => Err(HierFault::NoMemory),
    }
}

/// The fault of a name that is not there.
fn fault_of(alloc: Global, missing: &MissingName<'_>) -> HierFault
    ensures { (result ≡ HierFault.NoMemory) ⊎ (result ≡ name_fault (missing_of missing.now)) }
{
    match Text::from_bytes(alloc, missing.name) {
        Ok(name) => HierFault::NoSuchName {
            line: missing.line,
            name,
        },
        Err(_) => HierFault::NoMemory,
    }
}

/// Refuses rules with the first line that names what is not there.
fn check_names(alloc: Global, design: &Design, rules: &Rules) -> Result<(), HierFault>
    requires { IsDesign design.now }
    ensures { NamesGive design.now rules.now result }
{
    match missing_name(alloc, design, rules) {
        Ok(Some(missing)) => Err(fault_of(alloc, &missing)),
        Ok(None) => Ok(()),
        Err(_) => Err(HierFault::NoMemory),
    }
}

/// All cells by depth, and of one depth in the order of the file, so that each stands behind those that stand in it: a
/// cell without instances has depth 1. A netlist and its rules are refused with the first fault in this order: an instance
/// card of an unknown cell or with another count of nets than the cell has ports, card by card in the order of the file; a
/// cell that contains itself; a cell deeper than 32; a name in the rules that is not there. It takes time and memory in
/// proportion to the cards and the rules where cells are no deeper than 32.
pub fn order(alloc: Global, design: &Design, rules: &Rules) -> Result<Seq<u32>, HierFault>
    requires { IsDesign design.now }
    ensures { OrderGives design.now rules.now result }
{
    let depths = cell_depths(alloc, design)?;
    check_names(alloc, design, rules)?;
    match by_depth(alloc, depths.as_slice(), 32) {
        Ok(order) => Ok(order),
        Err(_) => Err(HierFault::NoMemory),
    }
}
