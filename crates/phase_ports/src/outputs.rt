//! What output ports ought to have in a phase in which they are observed.

ghost use Rattle.std.specs.Prelude.{◌≡◌, ◌<◌, ◌++◌, [], All, IfOk, OnOk, filter_map, length};
ghost use Rattle.std.specs.List.{cons_option};
ghost use Rattle.phase_ports.specs.Comparisons.{AreFew, AreOutputWishesOf, IsAtPort};
ghost use Rattle.phase_ports.specs.DontCares.{HaveBitsOf};
ghost use Rattle.phase_ports.specs.Seen.{seen_wish};
ghost use Rattle.rule_index.specs.Tables.{AreRuleTables};
ghost use Rattle.vrt_model.specs.Comparison.{cell_at};
ghost use Rattle.vrt_model.specs.PairedPorts.{HasRoles};

use crate::dontcares::bit_of;
use crate::observe_lines::is_observed_port;
use crate::port_list::{Port, output_signal, ports_by};
use phase_wishes::{Wanted, Wish};
use rule_index::RuleIndex;
use std::alloc::Global;
use vrt_model::{Cell, Design, FaultKind, Net, NoMemory, Pairing, Rules, Seq};

/// What a port ought to have, if it is an output that is observed in the phase: the bit of its signal, where that is not free. Of
/// signals that may be free `bits` has the don't-care bits.
fn seen_wish(
    index: &RuleIndex,
    rules: &Rules,
    cell: &Cell,
    phase: u32,
    bits: &[Option<u32>],
    port: Port,
) -> Option<Wish>
    requires tables { AreRuleTables rules.now index.now }
    ensures { result ≡ seen_wish rules.now cell.now phase bits.now port }
{
    let signal = output_signal(port.role)?;
    let name = cell.ports.get(port.place as usize)?;
    if !is_observed_port(index, rules, &cell.name, name, phase) {
        return None;
    }
    Some(Wish {
        kind: FaultKind::Differs,
        place: port.place,
        net: Net(port.net),
        wanted: Wanted::Signal(signal),
        free: bit_of(bits, signal),
    })
}

/// Adds a wish, if there is one.
fn add_wish(wishes: &mut Seq<Wish>, wish: Option<Wish>) -> Result<(), NoMemory>
    ensures { OnOk result (wishes.new ≡ wishes.old ++ cons_option wish []) }
{
    let Some(wish) = wish else {
        return Ok(());
    };
    wishes.append(wish)
}

/// What the ports ought to have that are outputs observed in a phase.
#[tactic(auto, using(crate::proofs::PortLaws::pushed))]
fn wishes_at(
    alloc: Global,
    index: &RuleIndex,
    rules: &Rules,
    cell: &Cell,
    phase: u32,
    bits: &[Option<u32>],
    ports: &[Port],
) -> Result<Seq<Wish>, NoMemory>
    requires tables { AreRuleTables rules.now index.now }
    ensures { IfOk result (λ wishes. wishes ≡ filter_map (seen_wish rules.now cell.now phase bits.now) ports.now) }
{
    let mut wishes = Seq::new(alloc);
    let mut rest = ports;
    'ports: while let Some((port, behind)) = rest.split_first() {
        let wish = seen_wish(index, rules, cell, phase, bits, *port);
        add_wish(&mut wishes, wish)?;
        rest = behind;
    }
    Ok(wishes)
}

/// A cell by its number.
fn cell_of(design: &Design, cell: u32) -> &Cell
    requires { cell < length design.now.cells }
    ensures { result.now ≡ cell_at design.entry.now cell }
{
    &design.cells.as_slice()[cell as usize]
}

/// What the output ports of a cell ought to have in a phase: for each that is observed in it, by the `observe` lines of the
/// cell, the bit of its signal, in the order of the ports. Only the lines of this cell are looked at. Where `bits` has a don't-care bit
/// of the signal, the wish is asked for where that is 0.
pub fn output_wishes(
    alloc: Global,
    index: &RuleIndex,
    design: &Design,
    rules: &Rules,
    cell: u32,
    pairing: &Pairing,
    phase: u32,
    bits: &[Option<u32>],
) -> Result<Seq<Wish>, NoMemory>
    requires cell { cell < length design.now.cells }
    requires roles { HasRoles rules.now (cell_at design.now cell) pairing.now }
    requires tables { AreRuleTables rules.now index.now }
    ensures are { IfOk result (AreOutputWishesOf design.now rules.now cell pairing.now phase) }
    ensures free { IfOk result (HaveBitsOf bits.now) }
    ensures at_ports { IfOk result (All (IsAtPort rules.now (cell_at design.now cell))) }
    ensures few { IfOk result (AreFew rules.now (cell_at design.now cell)) }
{
    let own = cell_of(design, cell);
    let ports = ports_by(alloc, pairing.ports.as_slice())?;
    wishes_at(alloc, index, rules, own, phase, bits, ports.as_slice())
}
