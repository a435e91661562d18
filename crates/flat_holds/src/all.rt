//! The holds of a flat circuit.

ghost use Rattle.std.specs.Prelude.{◌≡◌, ◌<◌, ◌≤◌, ◌++◌, ℕ, [], List, None, get_or, length, IfOk, OnOk};
ghost use Rattle.std.specs.List.{cons_option};
ghost use Rattle.flat_holds.specs.Falls.{HoldBy, best_from};
ghost use Rattle.net_places.specs.Links.{IsUnrolled};
ghost use Rattle.net_places.specs.Whole.{whole_of};
ghost use Rattle.net_tables.specs.Tables.{AreNetTables};
ghost use Rattle.rule_index.specs.Tables.{AreIndexed};
ghost use Rattle.vrt_model.specs.FlatCircuit.{flat_holds, flat_nets};
ghost use Rattle.vrt_model.specs.Hierarchy.{AreHoldNets};
ghost use Rattle.vrt_model.specs.Inputs.{IsDesign};
ghost use Rattle.vrt_model.specs.Unsupported.{top_before};
ghost use Rattle.vrt_model.specs.declared.pairing.PortRole.{PortRole as RoleValue};

use crate::falls::{Spot, best_spots};
use crate::holds::hold_at;
use net_places::Unrolled;
use net_tables::NetTables;
use rule_index::RuleIndex;
use std::alloc::Global;
use vrt_model::{Design, Hold, Net, NoMemory, Rules, Seq};

/// What is noted at a net, nothing where it has no entry.
fn spot_on(table: &[Option<Spot>], net: u32) -> Option<Spot>
    ensures { result ≡ get_or table.now net None }
{
    match table.get(net as usize) {
        Some(spot) => *spot,
        None => None,
    }
}

/// The hold of a flat net by the rule that counts on it, none where there is no rule.
fn hold_on(
    alloc: Global,
    index: &RuleIndex,
    design: &Design,
    rules: &Rules,
    unrolled: &Unrolled,
    net: u32,
    spot: Option<Spot>,
) -> Result<Option<Hold>, NoMemory>
    requires netlist { IsDesign design.now }
    requires indexed { AreIndexed design.now rules.now index.now }
    ensures { IfOk result (HoldBy design.now rules.now unrolled.now net spot) }
{
    let Some(spot) = spot else {
        return Ok(None);
    };
    let Some(rule) = rules.holds.get(spot.rule) else {
        return Ok(None);
    };
    let hold = hold_at(
        alloc,
        index,
        design,
        rules,
        unrolled,
        spot.place,
        rule,
        Net(net),
    )?;
    Ok(Some(hold))
}

/// Adds a hold, if there is one.
fn add(holds: &mut Seq<Hold>, hold: Option<Hold>) -> Result<(), NoMemory>
    ensures { OnOk result (holds.new ≡ holds.old ++ cons_option hold []) }
{
    let Some(hold) = hold else {
        return Ok(());
    };
    holds.append(hold)
}

/// The holds by a table of the rules that count on the nets, in the order of the nets.
fn holds_by(
    alloc: Global,
    index: &RuleIndex,
    design: &Design,
    rules: &Rules,
    unrolled: &Unrolled,
    cell: u32,
    table: &[Option<Spot>],
    nets: u32,
) -> Result<Seq<Hold>, NoMemory>
    requires netlist { IsDesign design.now }
    requires names { AreHoldNets design.now rules.now }
    requires indexed { AreIndexed design.now rules.now index.now }
    requires unrolled { (roles : List RoleValue) → IsUnrolled (whole_of design.now rules.now cell roles) unrolled.now }
    requires noted { (n : ℕ) → n < nets → get_or table.now n None ≡ best_from design.now rules.now index.now.lines.charges.holds unrolled.now n 0 unrolled.now.places }
    ensures { IfOk result (λ holds. (roles : List RoleValue) → nets ≡ length (flat_nets (whole_of design.now rules.now cell roles)) → holds ≡ flat_holds (whole_of design.now rules.now cell roles)) }
{
    let mut holds = Seq::new(alloc);
    let mut net = 0u32;
    'nets: while net < nets {
        let spot = spot_on(table, net);
        let hold = hold_on(alloc, index, design, rules, unrolled, net, spot)?;
        add(&mut holds, hold)?;
        net += 1;
    }
    Ok(holds)
}

/// The holds of the flat circuit of a cell, which has so many nets, in the order of their nets. Of several `hold` rules that
/// fall on one flat net the one of the outermost place counts, and of one depth the first in instance order. It takes
/// time and memory in proportion to the nets and the places, for each place to the `hold` rules of its cell, and for each
/// hold to the `match` and `enter` lines of its cell and to the `match` lines of the cells around it.
pub fn flat_holds(
    alloc: Global,
    index: &RuleIndex,
    design: &Design,
    rules: &Rules,
    tables: &NetTables,
    unrolled: &Unrolled,
    cell: u32,
    nets: u32,
) -> Result<Seq<Hold>, NoMemory>
    requires netlist { IsDesign design.now }
    requires names { AreHoldNets design.now rules.now }
    requires indexed { AreIndexed design.now rules.now index.now }
    requires tables { AreNetTables design.now rules.now tables.now }
    requires unrolled { (roles : List RoleValue) → IsUnrolled (whole_of design.now rules.now cell roles) unrolled.now }
    requires small { length (flat_nets (top_before design.now rules.now cell)) ≤ 20000 }
    ensures { IfOk result (λ holds. (roles : List RoleValue) → nets ≡ length (flat_nets (whole_of design.now rules.now cell roles)) → holds ≡ flat_holds (whole_of design.now rules.now cell roles)) }
{
    let table = best_spots(
        alloc,
        &index.lines.charges.holds,
        design,
        rules,
        tables,
        unrolled,
        nets as usize,
    )?;
    holds_by(
        alloc,
        index,
        design,
        rules,
        unrolled,
        cell,
        table.as_slice(),
        nets,
    )
}
