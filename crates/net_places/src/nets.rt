//! The nets of an unrolled cell behind its ports: its global nets, and the own nets of its places.

ghost use Rattle.std.specs.Prelude.{◌≡◌, ◌++◌, ◌∷◌, ℕ, List, [], cond, drop, flat_map, map, slice_get, IfOk, OnOk};
ghost use Rattle.net_places.specs.Links.{IsUnrolled};
ghost use Rattle.net_places.specs.OwnNets.{given_names, is_given, own_by};
ghost use Rattle.net_tables.specs.Tables.{AreNetTables};
ghost use Rattle.vrt_model.specs.FlatCircuit.{own_flat_nets, plain_net};
ghost use Rattle.vrt_model.specs.Lists.{path_name};
ghost use Rattle.vrt_model.specs.Unrolled.{Top, all_places, globals_of};

use crate::places::{Place, inner_path};
use crate::whole::Unrolled;
use net_tables::NetTables;
use std::alloc::Global;
use vrt_model::{Design, FlatNet, Net, NetKind, NoMemory, Seq, Text};

/// A plain net in a place.
fn inner_net(alloc: Global, path: &Text, name: &[u8]) -> Result<FlatNet, NoMemory>
    ensures { IfOk result (λ net. net ≡ plain_net (path_name path.now name.now)) }
{
    Ok(FlatNet {
        name: inner_path(alloc, path, name)?,
        kind: NetKind::Plain,
    })
}

/// Adds plain nets of some names in a place.
fn add_named(
    alloc: Global,
    nets: &mut Seq<FlatNet>,
    path: &Text,
    names: &[Text],
) -> Result<(), NoMemory>
    ensures { OnOk result (nets.new ≡ nets.old ++ map (λ (name : List ℕ). plain_net (path_name path.now name)) names.now) }
{
    'names: for name in names {
        nets.append(inner_net(alloc, path, name.as_bytes())?)?;
    }
    Ok(())
}

/// Adds the own nets of a place.
fn add_own(
    alloc: Global,
    nets: &mut Seq<FlatNet>,
    tables: &NetTables,
    place: &Place,
) -> Result<(), NoMemory>
    ensures { OnOk result (nets.new ≡ nets.old ++ own_by tables.now place.now) }
{
    if let Some(found) = tables.cells.get(place.cell) {
        let names = found.names.own.to_texts(alloc)?;
        add_named(alloc, nets, &place.path, names.as_slice())?;
    }
    Ok(())
}

/// Adds the own nets of places.
fn add_places(
    alloc: Global,
    nets: &mut Seq<FlatNet>,
    tables: &NetTables,
    places: &[Place],
) -> Result<(), NoMemory>
    ensures { OnOk result (nets.new ≡ nets.old ++ flat_map (own_by tables.now) places.now) }
{
    for place in places {
        add_own(alloc, nets, tables, place)?;
    }
    Ok(())
}

/// Whether the first of some flat nets is that of a global net.
fn is_first_given(globals: &[Net]) -> bool
    ensures { result ≡ is_given (slice_get globals.now 0) }
{
    match globals.first() {
        Some(net) => net.0 != 0,
        None => false,
    }
}

/// The flat nets behind the first.
fn behind_first(globals: &[Net]) -> &[Net]
    ensures { result.now ≡ drop 1 globals.now }
{
    match globals.split_first() {
        Some((_, behind)) => behind,
        None => &[],
    }
}

/// Adds a plain net of a name, if it is a global net.
fn add_if(
    alloc: Global,
    nets: &mut Seq<FlatNet>,
    name: &[u8],
    is_there: bool,
) -> Result<(), NoMemory>
    ensures { OnOk result (nets.new ≡ nets.old ++ cond is_there (plain_net name.now ∷ []) []) }
{
    if is_there {
        let name = Text::from_bytes(alloc, name)?;
        nets.append(FlatNet {
            name,
            kind: NetKind::Plain,
        })?;
    }
    Ok(())
}

/// Adds the global nets, by the names on `.global` cards and their flat nets.
fn add_globals(
    alloc: Global,
    nets: &mut Seq<FlatNet>,
    names: &[Text],
    globals: &[Net],
) -> Result<(), NoMemory>
    ensures { OnOk result (nets.new ≡ nets.old ++ map plain_net (given_names names.now globals.now)) }
{
    let mut left = names;
    let mut globals_left = globals;
    'names: while let Some((name, behind)) = left.split_first() {
        add_if(alloc, nets, name.as_bytes(), is_first_given(globals_left))?;
        left = behind;
        globals_left = behind_first(globals_left);
    }
    Ok(())
}

/// Adds the plain nets of an unrolled cell that are no ports: its global nets, in the order of the `.global` cards, and
/// then the own nets of its places by their path names, in instance order.
pub fn add_inner_nets(
    alloc: Global,
    nets: &mut Seq<FlatNet>,
    design: &Design,
    tables: &NetTables,
    unrolled: &Unrolled,
) -> Result<(), NoMemory>
    ensures { OnOk result ((t : Top) → t.design ≡ design.now → AreNetTables t.design t.rules tables.now → IsUnrolled t unrolled.now → nets.new ≡ nets.old ++ (map plain_net (globals_of t) ++ flat_map (own_flat_nets t) (all_places t))) }
{
    add_globals(
        alloc,
        nets,
        design.globals.as_slice(),
        unrolled.globals.as_slice(),
    )?;
    add_places(alloc, nets, tables, unrolled.places.as_slice())?;
    Ok(())
}
