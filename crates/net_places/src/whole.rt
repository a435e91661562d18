//! A cell as a whole.

ghost use Rattle.std.specs.Prelude.{◌≡◌, ◌<◌, ◌≤◌, ◌+◌, ◌^◌, ℕ, List, [], true, length, IfOk, OnOk};
ghost use Rattle.net_places.specs.Links.{IsUnrolled};
ghost use Rattle.net_places.specs.Places.{AreWithin, all_below, all_own};
ghost use Rattle.net_places.specs.Ports.{IsNumbered};
ghost use Rattle.net_places.specs.Whole.{AreNumbered, whole_by, whole_of};
ghost use Rattle.net_tables.specs.Nets.{net_in};
ghost use Rattle.net_tables.specs.Places.{is_net_of};
ghost use Rattle.net_tables.specs.Tables.{AreNetTables};
ghost use Rattle.net_tables.specs.declared.types.CellNet.TheVariants.{Own};
ghost use Rattle.vrt_model.specs.Comparison.{cell_at};
ghost use Rattle.vrt_model.specs.FlatCircuit.{flat_nets};
ghost use Rattle.vrt_model.specs.Inputs.{IsDesign};
ghost use Rattle.vrt_model.specs.Lists.{At};
ghost use Rattle.vrt_model.specs.Unrolled.{Place as FlatPlace, Top, all_places, first_global, net_at};
ghost use Rattle.vrt_model.specs.Unsupported.{top_before};
ghost use Rattle.vrt_model.specs.declared.pairing.PortRole.{PortRole as RoleValue};

use crate::globals::{GlobalNets, global_nets, marks_of};
use crate::places::Place;
use crate::ports::{PortNets, port_nets};
use crate::unrolled::unroll_from;
use net_tables::{CellNet, NetTables, place_net};
use std::alloc::Global;
use vrt_model::{Cell, Design, Net, NoMemory, Rules, Seq, Text};

/// All places of a cell, and the flat nets of its global nets.
pub struct Unrolled {
    /// The cell itself, and then its instances, in instance order.
    pub places: Seq<Place>,
    /// For each net on a `.global` card its flat net, 0 where no card of an unrolled cell names it.
    pub globals: Seq<Net>,
}

/// By hand, so that letting go of one is a call.
impl Drop for Unrolled {
    fn drop(self) {
        let Unrolled {
            places: _places,
            globals: _globals,
        } = self;
    }
}

impl Unrolled {
    /// The flat net of a net of the cell of a place.
    pub fn net(&self, place: &Place, net: CellNet) -> Net
        requires { (i : ℕ) → net ≡ Own i → place.now.base + i < 2 ^ 32 }
        ensures { (t : Top) (n : ℕ) (at : FlatPlace) (name : List ℕ) → IsUnrolled t self.now → At self.now.places n place.now → At (all_places t) n at → is_net_of (cell_at t.design at.cell) name ≡ true → net ≡ net_in t.design t.rules (cell_at t.design at.cell) name → result.0 ≡ net_at t at name }
    {
        place_net(
            net,
            place.ports.as_slice(),
            place.base,
            self.globals.as_slice(),
        )
    }
}

/// A cell by its number.
fn cell_of(design: &Design, cell: u32) -> &Cell
    requires { cell < length design.now.cells }
    ensures { result.now ≡ cell_at design.now cell }
{
    &design.cells.as_slice()[cell as usize]
}

/// The flat nets of the ports of the whole.
fn whole_ports(
    alloc: Global,
    design: &Design,
    rules: &Rules,
    tables: &NetTables,
    cell: u32,
) -> Result<PortNets, NoMemory>
    requires netlist { IsDesign design.now }
    requires there { cell < length design.now.cells }
    requires tables { AreNetTables design.now rules.now tables.now }
    ensures { IfOk result (λ ports. IsNumbered rules.now (cell_at design.now cell).ports ports.nets ports.next) }
{
    let names = cell_of(design, cell).ports.as_slice();
    port_nets(alloc, tables, cell as usize, names)
}

/// The flat nets of the global nets of the whole, behind those of its ports.
fn whole_globals(
    alloc: Global,
    design: &Design,
    rules: &Rules,
    tables: &NetTables,
    cell: u32,
    first: u32,
) -> Result<GlobalNets, NoMemory>
    requires netlist { IsDesign design.now }
    requires tables { AreNetTables design.now rules.now tables.now }
    requires first { first ≡ first_global (top_before design.now rules.now cell) }
    requires small { length (flat_nets (top_before design.now rules.now cell)) ≤ 20000 }
    ensures { IfOk result (λ globals. AreNumbered (top_before design.now rules.now cell) globals.nets globals.next) }
{
    let marks = marks_of(alloc, tables, cell as usize, design.globals.len())?;
    global_nets(alloc, marks.as_slice(), first)
}

/// Adds all places of a whole, to none.
fn unroll_whole(
    alloc: Global,
    design: &Design,
    tables: &NetTables,
    globals: &[Net],
    whole: &Place,
    places: &mut Seq<Place>,
) -> Result<(), NoMemory>
    requires within { AreWithin tables.now }
    requires room { whole.now.base + all_own tables.now whole.now.cell < 2 ^ 32 }
    requires outermost { whole.now.depth ≡ 0 }
    requires none { places.old ≡ [] }
    ensures { OnOk result (places.new ≡ all_below design.now tables.now globals.now whole.now) }
{
    unroll_from(alloc, design, tables, globals, 32, whole, places)?;
    Ok(())
}

/// A cell as a whole, by the flat nets of its ports and the net behind its global nets.
fn whole_place(alloc: Global, cell: u32, ports: Seq<Net>, base: u32) -> Place
    ensures { result ≡ whole_by cell ports base }
{
    Place {
        cell: cell as usize,
        around: 0,
        card: 0,
        depth: 0,
        path: Text::new(alloc),
        ports,
        base,
    }
}

/// All places of a whole, by the flat nets of its ports and of its global nets.
fn places_of(
    alloc: Global,
    design: &Design,
    tables: &NetTables,
    whole: &Place,
    globals: Seq<Net>,
) -> Result<Unrolled, NoMemory>
    requires within { AreWithin tables.now }
    requires room { whole.now.base + all_own tables.now whole.now.cell < 2 ^ 32 }
    requires outermost { whole.now.depth ≡ 0 }
    ensures places { IfOk result (λ unrolled. unrolled.places ≡ all_below design.now tables.now globals whole.now) }
    ensures globals { IfOk result (λ unrolled. unrolled.globals ≡ globals) }
{
    let mut places = Seq::new(alloc);
    unroll_whole(
        alloc,
        design,
        tables,
        globals.as_slice(),
        whole,
        &mut places,
    )?;
    Ok(Unrolled { places, globals })
}

/// All places of a cell, whose flat circuit is not too large: the cell itself and its instances at all depths, in instance
/// order, with the flat nets of their ports and of their own nets, and how each stands in the one around it. It takes
/// time and memory in proportion to the cards that are unrolled, to the global nets and to the paths.
pub fn unroll(
    alloc: Global,
    design: &Design,
    rules: &Rules,
    tables: &NetTables,
    cell: u32,
) -> Result<Unrolled, NoMemory>
    requires netlist { IsDesign design.now }
    requires there { cell < length design.now.cells }
    requires tables { AreNetTables design.now rules.now tables.now }
    requires small { length (flat_nets (top_before design.now rules.now cell)) ≤ 20000 }
    ensures { IfOk result (λ unrolled. (roles : List RoleValue) → IsUnrolled (whole_of design.now rules.now cell roles) unrolled) }
{
    let ports = whole_ports(alloc, design, rules, tables, cell)?;
    let globals = whole_globals(alloc, design, rules, tables, cell, ports.next)?;
    let whole = whole_place(alloc, cell, ports.nets, globals.next);
    places_of(alloc, design, tables, &whole, globals.nets)
}
