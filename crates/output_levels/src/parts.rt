//! The levels of nets of a circuit, part by part.

ghost use Rattle.std.specs.Prelude.{◌≡◌, ◌*◌, ◌<◌, ◌≤◌, ℕ, All, IfOk, [], ◌∷◌, false, length, sum_by, true};
ghost use Rattle.bdd_core.specs.Diagram.{IsWithin};
ghost use Rattle.bdd_core.specs.Store.{IsLive, function_of};
ghost use Rattle.bdd_ops.specs.Counting.{Counts, IsSpanWithin};
ghost use Rattle.output_levels.specs.PartLevels.{HasLevelSpans, IsInPart, IsPartTold, IsToldIn, WritesIn, level_operations};
ghost use Rattle.path_fixpoint.specs.Parts.{IsPart};
ghost use Rattle.path_fixpoint.specs.Strengths.{net_words, circuit_words};
ghost use Rattle.vrt_model.specs.Levels.{source_level};
ghost use Rattle.vrt_model.specs.Lists.{Among, At, mark_at};
ghost use Rattle.vrt_model.specs.Networks.{HasRanges};
ghost use Rattle.channel_parts.specs.declared.part.Part.{Part as PartValue};
ghost use Rattle.vrt_model.specs.declared.ids.Net.{Net as NetValue};

use crate::judge::{is_asked, judge_part};
use bdd_core::{H, Spent, Store};
use channel_parts::Part;
use node_pool::Span;
use path_fixpoint::{NetWords, net_words, strengths};
use vrt_model::{Circuit, Net};

/// The words for a part among those for the greatest.
fn words_of(circuit: &Circuit, part: &Part, out: Span) -> NetWords
    requires { net_words (source_level circuit.now) * length part.now.nets ≤ out.len }
    ensures { result ≡ circuit_words circuit.now (record { start = out.start; len = net_words (source_level circuit.now) * length part.now.nets }) }
{
    let source = circuit.source_level();
    let span = Span {
        start: out.start,
        len: net_words(source) * part.nets.len() as u32,
    };
    NetWords { span, source }
}

/// Whether one of some nets is asked for.
fn has_asked(nets: &[Net], asked: &[bool]) -> bool
    requires { All (λ (n : NetValue). n.0 < length asked.now) nets.now }
    ensures { result ≡ false → (i : ℕ) (n : NetValue) → At nets.now i n → mark_at asked.now n.0 ≡ false }
{
    for net in nets {
        if is_asked(asked, *net) {
            return true;
        }
    }
    false
}

/// Writes the levels of those nets of a part that are asked for. A part without one takes no operations.
fn part_levels(
    store: &mut Store,
    circuit: &Circuit,
    part: &Part,
    asked: &[bool],
    care: H,
    gates: Span,
    out: Span,
    levels: &mut Vec<Option<u8>>,
) -> Result<(), Spent>
    requires circuit { HasRanges circuit.now }
    requires part { IsPart circuit.now part.now }
    requires asked { (length asked.now ≡ length circuit.now.nets) × (length levels.old.items ≡ length circuit.now.nets) }
    requires care { IsLive store.old care }
    requires spans { HasLevelSpans circuit.now (part.now ∷ []) gates out store.old }
    ensures writes { WritesIn out store.old store.new }
    ensures len { length levels.new.items ≡ length levels.old.items }
    ensures gives { IfOk result (λ _. IsPartTold circuit.now part.now asked.now gates care store.old levels.old.items levels.new.items) }
    ensures few { (u : ℕ) → IsWithin u (function_of store.old care) → IsSpanWithin u store.old gates → Counts u (level_operations circuit.now part.now) store.old store.new result }
{
    store.sound();
    let wanted = has_asked(part.nets.as_slice(), asked);
    if !wanted {
        return Ok(());
    }
    let words = words_of(circuit, part, out);
    match strengths(store, circuit, part, gates, words) {
        Ok(()) => {}
        Err(spent) => return Err(spent),
    }
    judge_part(store, part, asked, care, words, levels)
}

/// Writes for each net of some parts that is asked for the level that it has at every valuation of the care set, or that there
/// is none: its strength in the network of its part, where the devices of the part have the bits of `gates`. Each part with
/// such a net is solved once, the others not at all. `asked` has a mark for each net of the circuit, and `levels` a place.
///
/// Handles from before keep their functions and words outside `out` stay as they are, also where the budget is used up.
/// Where the handles read only the first `u` variables, a part of p nets and q devices takes at most 4 l p q + (l + 1) p operations
/// of `2 ^ u` nodes, where l is the source level.
pub fn circuit_levels(
    store: &mut Store,
    circuit: &Circuit,
    parts: &[Part],
    asked: &[bool],
    care: H,
    gates: Span,
    out: Span,
    levels: &mut Vec<Option<u8>>,
) -> Result<(), Spent>
    requires circuit { HasRanges circuit.now }
    requires parts { (part : PartValue) → Among parts.now part → IsPart circuit.now part }
    requires asked { (length asked.now ≡ length circuit.now.nets) × (length levels.old.items ≡ length circuit.now.nets) }
    requires care { IsLive store.old care }
    requires spans { HasLevelSpans circuit.now parts.now gates out store.old }
    ensures writes { WritesIn out store.old store.new }
    ensures len { length levels.new.items ≡ length levels.old.items }
    ensures gives { IfOk result (λ _. (n : ℕ) (part : PartValue) → Among parts.now part → IsInPart part n → mark_at asked.now n ≡ true → IsToldIn circuit.now parts.now gates care store.old levels.new.items n) }
    ensures few { (u : ℕ) → IsWithin u (function_of store.old care) → IsSpanWithin u store.old gates → Counts u (sum_by (level_operations circuit.now) parts.now) store.old store.new result }
{
    store.sound();
    for part in parts {
        match part_levels(store, circuit, part, asked, care, gates, out, levels) {
            Ok(()) => {}
            Err(spent) => return Err(spent),
        }
    }
    Ok(())
}
