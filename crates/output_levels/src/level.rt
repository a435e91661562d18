//! The level of one net.

ghost use Rattle.std.specs.Prelude.{◌≡◌, ◌+◌, ◌*◌, ◌^◌, ◌<◌, ◌≤◌, ℕ, IfOk};
ghost use Rattle.bdd_core.specs.Diagram.{IsWithin, Valuation};
ghost use Rattle.bdd_core.specs.Store.{AddsNodes, IsLive, IsSpan, function_of};
ghost use Rattle.bdd_core.specs.Words.{IsFilled, word_at};
ghost use Rattle.bdd_ops.specs.Counting.{Counts, IsSpanWithin};
ghost use Rattle.output_levels.specs.Always.{AreStrengths, IsLeastStrength, LevelGives, strong_at};
ghost use Rattle.path_fixpoint.specs.Strengths.{net_words, word_of};

use crate::always::{is_always, is_never};
use bdd_core::{H, Spent, Store};
use path_fixpoint::{NetWords, net_words};

/// Where the strength of the net at a place of a part is at least a level.
fn strong(store: &Store, out: NetWords, place: usize, level: u32) -> H
    requires out { IsSpan store.now out.span × IsFilled store.now out.span }
    requires place { (net_words out.source * place + net_words out.source ≤ out.span.len) × (out.span.len < 2 ^ 32) }
    requires level { (1 ≤ level) × (level ≤ out.source) }
    ensures live { IsLive store.now result }
    ensures is { result.0 ≡ word_at store.now out.span (word_of out level place) }
{
    store.sound();
    H(store.read(out.span, net_words(out.source) * place as u32 + (level - 1)))
}

/// The least strength of the net at a place in the care set: the greatest level up to which it is everywhere, and 0 where there is
/// none.
fn least_strength(store: &mut Store, care: H, out: NetWords, place: usize) -> Result<u32, Spent>
    requires care { IsLive store.old care }
    requires out { IsSpan store.old out.span × IsFilled store.old out.span }
    requires place { (net_words out.source * place + net_words out.source ≤ out.span.len) × (out.span.len < 2 ^ 32) }
    ensures adds { AddsNodes store.old store.new }
    ensures is { IfOk result (λ level. IsLeastStrength out.source (function_of store.old care) (strong_at store.old out place) level) }
    ensures few { (u : ℕ) → IsWithin u (function_of store.old care) → IsSpanWithin u store.old out.span → Counts u out.source store.old store.new result }
{
    store.sound();
    let source = out.source as u32;
    for done in 0..source {
        let level = source - done;
        let mark = strong(store, out, place, level);
        let always = match is_always(store, care, mark) {
            Ok(always) => always,
            Err(spent) => return Err(spent),
        };
        if always {
            return Ok(level);
        }
    }
    Ok(0)
}

/// The level that the net at a place of a part has at every valuation of the care set, from 0 to the source level, if there is
/// one. `out` has the words of the part, as `strengths` wrote them. Where there is no care at all, each level is one, and
/// the source level is told.
///
/// Nodes alone are added, also after `Spent`; where the handles read only the first `u` variables, at most l + 1 operations of
/// `2 ^ u` nodes, where l is the source level.
pub fn constant_level(
    store: &mut Store,
    care: H,
    out: NetWords,
    place: usize,
) -> Result<Option<u8>, Spent>
    requires care { IsLive store.old care }
    requires out { IsSpan store.old out.span × IsFilled store.old out.span }
    requires place { (net_words out.source * place + net_words out.source ≤ out.span.len) × (out.span.len < 2 ^ 32) }
    ensures adds { AddsNodes store.old store.new }
    ensures gives { IfOk result (λ found. (s : Valuation → ℕ) → AreStrengths out.source (function_of store.old care) (strong_at store.old out place) s → LevelGives (function_of store.old care) s found) }
    ensures few { (u : ℕ) → IsWithin u (function_of store.old care) → IsSpanWithin u store.old out.span → Counts u (out.source + 1) store.old store.new result }
{
    let level = match least_strength(store, care, out, place) {
        Ok(level) => level,
        Err(spent) => return Err(spent),
    };
    if level == out.source as u32 {
        return Ok(Some(out.source));
    }
    let above = strong(store, out, place, level + 1);
    match is_never(store, care, above) {
        Ok(true) => Ok(Some(level as u8)),
        Ok(false) => Ok(None),
        Err(spent) => Err(spent),
    }
}
