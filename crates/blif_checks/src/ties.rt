//! What sub-models drive, and what they read.

ghost use Rattle.std.specs.Prelude.{◌≡◌, ◌++◌, ◌∷◌, [], filter, map, flat_map, OnOk};
ghost use Rattle.vrt_model.specs.Models.{ties_on};
ghost use Rattle.vrt_model.specs.declared.blif.SubLine.{SubLine as SubValue};
ghost use Rattle.blif_checks.specs.Drivers.{AreClocks, in_role, tied_on};
ghost use Rattle.blif_checks.specs.Mentions.{numbered};
ghost use Rattle.blif_checks.specs.Tables.{AreTables};

use crate::mentions::{Mention, add};
use crate::roles::{Role, has_role};
use crate::tables::Tables;
use names::Names;
use vrt_model::{Blif, NoMemory, Seq, SubLine, Tie};

/// Adds what a tie has in a role, if it has that role.
fn add_tie(
    list: &mut Seq<Mention>,
    names: &Names,
    blif: &Blif,
    tables: &Tables,
    clocks: &[Names],
    role: Role,
    sub: &SubLine,
    tie: &Tie,
) -> Result<(), NoMemory>
    requires tables { AreTables blif.now tables.now }
    requires clocks { AreClocks blif.now clocks.now }
    ensures { OnOk result (list.new ≡ list.old ++ map (numbered names.now) (map (tied_on sub.now) (filter (in_role role blif.now sub.now) (tie.now ∷ [])))) }
{
    if !has_role(blif, tables, clocks, role, sub, tie) {
        return Ok(());
    }
    add(list, names, sub.line, tie.actual.as_bytes())
}

/// Adds what ties of a sub-model have in a role.
fn add_ties(
    list: &mut Seq<Mention>,
    names: &Names,
    blif: &Blif,
    tables: &Tables,
    clocks: &[Names],
    role: Role,
    sub: &SubLine,
    ties: &[Tie],
) -> Result<(), NoMemory>
    requires tables { AreTables blif.now tables.now }
    requires clocks { AreClocks blif.now clocks.now }
    ensures { OnOk result (list.new ≡ list.old ++ map (numbered names.now) (map (tied_on sub.now) (filter (in_role role blif.now sub.now) ties.now))) }
{
    for tie in ties {
        add_tie(list, names, blif, tables, clocks, role, sub, tie)?;
    }
    Ok(())
}

/// Adds what sub-models drive, or what they read.
pub(crate) fn add_subs(
    list: &mut Seq<Mention>,
    names: &Names,
    blif: &Blif,
    tables: &Tables,
    clocks: &[Names],
    role: Role,
    subs: &[SubLine],
) -> Result<(), NoMemory>
    requires tables { AreTables blif.now tables.now }
    requires clocks { AreClocks blif.now clocks.now }
    ensures { OnOk result (list.new ≡ list.old ++ map (numbered names.now) (flat_map (λ (s : SubValue). ties_on (in_role role blif.now s) s) subs.now)) }
{
    for sub in subs {
        add_ties(
            list,
            names,
            blif,
            tables,
            clocks,
            role,
            sub,
            sub.ties.as_slice(),
        )?;
    }
    Ok(())
}
