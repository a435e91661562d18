//! Which `hold` rule counts on each flat net.

ghost use Rattle.std.specs.Prelude.{◌≡◌, ◌<◌, ℕ, None, length, get_or, cond, ◌==◌, IfOk};
ghost use Rattle.flat_holds.specs.Falls.{AreRoomy, HasNoted, IsRoomy, best_at, best_from, closer_by, depth_of, number_in, own_places, spot_at};

use crate::lines::cell_name;
use net_places::{Place, Unrolled};
use net_tables::{NetTables, find_net, place_net};
use rule_index::ByCell;
use std::alloc::Global;
use vrt_model::{Design, HoldRule, Net, NoMemory, Rules};

/// A `hold` rule at a place of its cell.
#[derive(Clone, Copy)]
pub(crate) struct Spot {
    /// The number of the place, 0 for the whole.
    pub place: usize,
    /// How many places stand around it.
    pub depth: u32,
    /// The place of the rule in `Rules.holds`.
    pub rule: usize,
}

/// The flat net of the net of a rule, at a place.
fn rule_net(
    design: &Design,
    rules: &Rules,
    tables: &NetTables,
    unrolled: &Unrolled,
    place: &Place,
    rule: &HoldRule,
) -> Net
    requires { IsRoomy design.now rules.now tables.now place.now }
    ensures { result.0 ≡ number_in design.now rules.now unrolled.now place.now rule.now.net }
{
    let net = find_net(tables, place.cell, rule.net.as_bytes());
    place_net(
        net,
        place.ports.as_slice(),
        place.base,
        unrolled.globals.as_slice(),
    )
}

/// For each net that there is no rule yet.
fn no_spots(alloc: Global, nets: usize) -> Result<Vec<Option<Spot>>, NoMemory>
    ensures len { IfOk result (λ t. length t.items ≡ nets) }
    ensures none { IfOk result (λ t. (n : ℕ) → get_or t.items n None ≡ None) }
{
    let mut table = Vec::new(alloc);
    match table.resize(nets, None) {
        Ok(()) => Ok(table),
        Err(_) => Err(NoMemory),
    }
}

/// Of two rules the one further out, of one depth the first.
fn closer(best: Option<Spot>, other: Option<Spot>) -> Option<Spot>
    ensures { result ≡ closer_by depth_of best other }
{
    match best {
        Some(one) => match other {
            Some(two) => if two.depth < one.depth {
                Some(two)
            } else {
                Some(one)
            },
            None => Some(one),
        },
        None => other,
    }
}

/// Notes a rule at a net, if the net is there: of it and the rule that counted so far the one that counts stays.
fn note(table: &mut Vec<Option<Spot>>, net: usize, spot: Spot)
    ensures len { length table.new.items ≡ length table.old.items }
    ensures noted { (n : ℕ) → n < length table.old.items → get_or table.new.items n None ≡ closer_by depth_of (get_or table.old.items n None) (cond (net == n) (Some spot) None) }
{
    if net < table.len() {
        table[net] = closer(table[net], Some(spot));
    }
}

/// Notes the `hold` rule at a place of `Rules.holds` on the flat net on which it falls at a place of its cell.
fn note_rule(
    table: &mut Vec<Option<Spot>>,
    design: &Design,
    rules: &Rules,
    tables: &NetTables,
    unrolled: &Unrolled,
    number: usize,
    place: &Place,
    at: usize,
)
    requires { IsRoomy design.now rules.now tables.now place.now }
    ensures { HasNoted (λ n. spot_at design.now rules.now unrolled.now n number place.now at) table.old.items table.new.items }
{
    if let Some(rule) = rules.holds.get(at) {
        let net = rule_net(design, rules, tables, unrolled, place, rule);
        let spot = Spot {
            place: number,
            depth: place.depth,
            rule: at,
        };
        note(table, net.0 as usize, spot);
    }
}

/// Notes the `hold` rules at places of `Rules.holds`, at a place of their cell.
fn note_rules(
    table: &mut Vec<Option<Spot>>,
    design: &Design,
    rules: &Rules,
    tables: &NetTables,
    unrolled: &Unrolled,
    number: usize,
    place: &Place,
    lines: &[usize],
)
    requires { IsRoomy design.now rules.now tables.now place.now }
    ensures { HasNoted (λ n. best_at design.now rules.now unrolled.now n number place.now lines.now) table.old.items table.new.items }
{
    let mut left = lines;
    'lines: while let Some((at, behind)) = left.split_first() {
        note_rule(table, design, rules, tables, unrolled, number, place, *at);
        left = behind;
    }
}

/// Notes the `hold` rules of the cell of a place.
fn note_place(
    table: &mut Vec<Option<Spot>>,
    holds: &ByCell,
    design: &Design,
    rules: &Rules,
    tables: &NetTables,
    unrolled: &Unrolled,
    number: usize,
    place: &Place,
)
    requires { IsRoomy design.now rules.now tables.now place.now }
    ensures { HasNoted (λ n. best_at design.now rules.now unrolled.now n number place.now (own_places design.now holds.now place.now)) table.old.items table.new.items }
{
    let lines = holds.places(cell_name(design, place.cell));
    note_rules(table, design, rules, tables, unrolled, number, place, lines);
}

/// Notes the `hold` rules of the cells of all places.
fn note_places(
    table: &mut Vec<Option<Spot>>,
    holds: &ByCell,
    design: &Design,
    rules: &Rules,
    tables: &NetTables,
    unrolled: &Unrolled,
)
    requires { AreRoomy design.now rules.now tables.now unrolled.now.places }
    ensures { HasNoted (λ n. best_from design.now rules.now holds.now unrolled.now n 0 unrolled.now.places) table.old.items table.new.items }
{
    for (number, place) in unrolled.places.as_slice().iter().enumerate() {
        note_place(table, holds, design, rules, tables, unrolled, number, place);
    }
}

/// For each of so many flat nets the rule that counts on it: of those that fall on it the one of the outermost place, of
/// one depth the first in instance order.
pub(crate) fn best_spots(
    alloc: Global,
    holds: &ByCell,
    design: &Design,
    rules: &Rules,
    tables: &NetTables,
    unrolled: &Unrolled,
    nets: usize,
) -> Result<Vec<Option<Spot>>, NoMemory>
    requires { AreRoomy design.now rules.now tables.now unrolled.now.places }
    ensures { IfOk result (λ t. (n : ℕ) → n < nets → get_or t.items n None ≡ best_from design.now rules.now holds.now unrolled.now n 0 unrolled.now.places) }
{
    let mut table = no_spots(alloc, nets)?;
    note_places(&mut table, holds, design, rules, tables, unrolled);
    Ok(table)
}
