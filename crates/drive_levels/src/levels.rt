//! The levels of nets in both circuits of a phase.

ghost use Rattle.std.specs.Prelude.{◌≡◌, ◌==◌, ℕ, IfOk, None, Some, cond, length};
ghost use Rattle.bdd_core.specs.Diagram.{IsWithin};
ghost use Rattle.bdd_core.specs.Store.{IsLive, function_of};
ghost use Rattle.bdd_ops.specs.Counting.{Counts, IsSpanWithin};
ghost use Rattle.channel_parts.specs.declared.part.Part.{Part as PartValue};
ghost use Rattle.drive_levels.specs.NetLevels.{LevelsGive, SeenLevelsGive, drive_operations, same_level};
ghost use Rattle.drive_levels.specs.PhaseLevels.{HasTables, KeepsTables, level_in};
ghost use Rattle.output_levels.specs.PartLevels.{HasLevelSpans, WritesIn, level_at};
ghost use Rattle.path_fixpoint.specs.Parts.{IsPart};
ghost use Rattle.vrt_model.specs.Lists.{Among};
ghost use Rattle.vrt_model.specs.Networks.{HasRanges};

use crate::one_level::{are_observed, one_level, write_everywhere};
use crate::table::NetLevels;
use bdd_core::{H, Spent, Store};
use channel_parts::Part;
use circuit_faults::has_keeper;
use known_nets::is_plain;
use node_pool::Span;
use output_levels::circuit_levels;
use vrt_model::{Circuit, Net};

/// Writes the levels of another table of as many places.
fn copy_levels(levels: &[Option<u8>], copy: &mut Vec<Option<u8>>)
    requires { length copy.old.items ≡ length levels.now }
    ensures { copy.new.items ≡ levels.now }
{
    copy.as_mut_slice().copy_from_slice(levels);
}

/// Writes the levels of the nets that are asked for, by the strengths of their parts. Each part with such a net is solved once, the others
/// not at all; where no device is a keeper, the two circuits are one, and none is solved again.
fn solved_levels(
    store: &mut Store,
    circuit: &Circuit,
    bare: &[Part],
    kept: &[Part],
    care: H,
    gates: Span,
    out: Span,
    levels: &mut NetLevels,
) -> Result<(), Spent>
    requires circuit { HasRanges circuit.now }
    requires bare { (part : PartValue) → Among bare.now part → IsPart circuit.now part }
    requires kept { (part : PartValue) → Among kept.now part → IsPart circuit.now part }
    requires levels { HasTables (length circuit.now.nets) levels.old }
    requires care { IsLive store.old care }
    requires spans { HasLevelSpans circuit.now bare.now gates out store.old × HasLevelSpans circuit.now kept.now gates out store.old }
    ensures writes { WritesIn out store.old store.new }
    ensures keeps { KeepsTables levels.old levels.new }
    ensures gives { IfOk result (λ _. LevelsGive circuit.now bare.now kept.now levels.new.asked.items care gates store.old (level_in circuit.now levels.new)) }
    ensures few { (u : ℕ) → IsWithin u (function_of store.old care) → IsSpanWithin u store.old gates → Counts u (drive_operations circuit.now bare.now kept.now) store.old store.new result }
{
    let asked = levels.asked.as_slice();
    match circuit_levels(
        store,
        circuit,
        bare,
        asked,
        care,
        gates,
        out,
        &mut levels.bare,
    ) {
        Ok(()) => {}
        Err(spent) => return Err(spent),
    }
    if !has_keeper(circuit) {
        copy_levels(levels.bare.as_slice(), &mut levels.kept);
        return Ok(());
    }
    circuit_levels(
        store,
        circuit,
        kept,
        asked,
        care,
        gates,
        out,
        &mut levels.kept,
    )
}

/// Writes the levels of the nets that are asked for: in the bare circuit, whose parts these are, and in the kept one. Where all devices are of
/// one level, only given nets are roots, and `observed` marks each such net, that is its level, and nothing is solved. `gates` has the bits of
/// the nets in the one solution of the phase. `level_of` reads what the two tables say together: exactly the level that a net has in both, at
/// each valuation of the care set, in each state that agrees with the solution there, or that there is none. An output of a whole instance is
/// a root of its drive there, as a hold is of its size.
///
/// Handles from before keep their functions and words outside `out` stay as they are, also where the budget is used up. Where the
/// handles read only the first `u` variables, a part of p nets and q devices takes at most 4 l p q + (l + 1) p operations of `2 ^ u` nodes, where l is
/// the source level.
pub fn net_levels(
    store: &mut Store,
    circuit: &Circuit,
    bare: &[Part],
    kept: &[Part],
    observed: &[bool],
    care: H,
    gates: Span,
    out: Span,
    levels: &mut NetLevels,
) -> Result<(), Spent>
    requires circuit { HasRanges circuit.now }
    requires bare { (part : PartValue) → Among bare.now part → IsPart circuit.now part }
    requires kept { (part : PartValue) → Among kept.now part → IsPart circuit.now part }
    requires levels { HasTables (length circuit.now.nets) levels.old }
    requires care { IsLive store.old care }
    requires spans { HasLevelSpans circuit.now bare.now gates out store.old × HasLevelSpans circuit.now kept.now gates out store.old }
    ensures writes { WritesIn out store.old store.new }
    ensures keeps { KeepsTables levels.old levels.new }
    ensures gives { IfOk result (λ _. SeenLevelsGive circuit.now bare.now kept.now levels.new.asked.items observed.now care gates store.old (level_in circuit.now levels.new)) }
    ensures few { (u : ℕ) → IsWithin u (function_of store.old care) → IsSpanWithin u store.old gates → Counts u (drive_operations circuit.now bare.now kept.now) store.old store.new result }
{
    store.sound();
    if are_observed(levels.asked.as_slice(), observed) {
        if let Some(level) = one_level(circuit) {
            write_everywhere(level, &mut levels.bare);
            write_everywhere(level, &mut levels.kept);
            return Ok(());
        }
    }
    solved_levels(store, circuit, bare, kept, care, gates, out, levels)
}

/// The level at a place of a table, none past its end.
pub(crate) fn level_at(levels: &[Option<u8>], place: usize) -> Option<u8>
    ensures { result ≡ level_at levels.now place }
{
    match levels.get(place) {
        Some(level) => *level,
        None => None,
    }
}

/// A level where it is the same as another.
fn level_if_same(level: u8, other: u8) -> Option<u8>
    ensures { result ≡ cond (level == other) (Some level) None }
{
    if level == other { Some(level) } else { None }
}

/// The level that both have.
pub(crate) fn same_level(bare: Option<u8>, kept: Option<u8>) -> Option<u8>
    ensures { result ≡ same_level bare kept }
{
    match (bare, kept) {
        (Some(level), Some(other)) => level_if_same(level, other),
        (Some(_), None) => None,
        (None, _) => None,
    }
}

/// The level of a net, by what `net_levels` wrote of both circuits. A net that is not plain is a source.
pub fn level_of(circuit: &Circuit, levels: &NetLevels, net: Net) -> Option<u8>
    ensures { result ≡ level_in circuit.now levels.now net.0 }
{
    if !is_plain(circuit, net.0 as usize) {
        return Some(circuit.source_level());
    }
    same_level(
        level_at(levels.bare.as_slice(), net.0 as usize),
        level_at(levels.kept.as_slice(), net.0 as usize),
    )
}
