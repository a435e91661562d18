//! The nets of a solved part that are asked for, each with the level that it always has.

ghost use Rattle.std.specs.Prelude.{◌≡◌, ◌≢◌, ◌+◌, ◌*◌, ◌^◌, ◌<◌, ◌≤◌, ℕ, All, IfOk, length};
ghost use Rattle.bdd_core.specs.Diagram.{IsWithin};
ghost use Rattle.bdd_core.specs.Store.{AddsNodes, IsLive, IsSpan, function_of};
ghost use Rattle.bdd_core.specs.Words.{IsFilled};
ghost use Rattle.bdd_ops.specs.Counting.{Counts, IsSpanWithin};
ghost use Rattle.output_levels.specs.Always.{strong_at};
ghost use Rattle.output_levels.specs.PartLevels.{AreJudged, IsPlaceJudged, level_at};
ghost use Rattle.path_fixpoint.specs.Parts.{IsPlace};
ghost use Rattle.path_fixpoint.specs.Strengths.{net_words};
ghost use Rattle.vrt_model.specs.Lists.{mark_at};
ghost use Rattle.vrt_model.specs.declared.ids.Net.{Net as NetValue};

use crate::level::constant_level;
use bdd_core::{H, Spent, Store};
use channel_parts::Part;
use path_fixpoint::NetWords;
use vrt_model::Net;

/// Whether a net is asked for.
pub(crate) fn is_asked(asked: &[bool], net: Net) -> bool
    requires { net.0 < length asked.now }
    ensures { result ≡ mark_at asked.now net.0 }
{
    asked[net.0 as usize]
}

/// Writes the level of a net.
fn write_level(levels: &mut Vec<Option<u8>>, net: Net, level: Option<u8>)
    requires { net.0 < length levels.old.items }
    ensures len { length levels.new.items ≡ length levels.old.items }
    ensures here { level_at levels.new.items net.0 ≡ level }
    ensures others { (n : ℕ) → n ≢ net.0 → level_at levels.new.items n ≡ level_at levels.old.items n }
{
    levels[net.0 as usize] = level;
}

/// Writes the level of the net at a place, where it is asked for.
fn judge_place(
    store: &mut Store,
    net: Net,
    place: usize,
    asked: &[bool],
    care: H,
    out: NetWords,
    levels: &mut Vec<Option<u8>>,
) -> Result<(), Spent>
    requires net { (net.0 < length asked.now) × (length levels.old.items ≡ length asked.now) }
    requires care { IsLive store.old care }
    requires out { IsSpan store.old out.span × IsFilled store.old out.span }
    requires place { (net_words out.source * place + net_words out.source ≤ out.span.len) × (out.span.len < 2 ^ 32) }
    ensures adds { AddsNodes store.old store.new }
    ensures len { length levels.new.items ≡ length levels.old.items }
    ensures gives { IfOk result (λ _. IsPlaceJudged out.source asked.now (function_of store.old care) (strong_at store.old out place) net.0 levels.old.items levels.new.items) }
    ensures few { (u : ℕ) → IsWithin u (function_of store.old care) → IsSpanWithin u store.old out.span → Counts u (out.source + 1) store.old store.new result }
{
    store.sound();
    let wanted = is_asked(asked, net);
    if !wanted {
        return Ok(());
    }
    let level = match constant_level(store, care, out, place) {
        Ok(level) => level,
        Err(spent) => return Err(spent),
    };
    write_level(levels, net, level);
    Ok(())
}

/// Writes the levels of those nets of a part that are asked for. `out` has the words of the part.
pub(crate) fn judge_part(
    store: &mut Store,
    part: &Part,
    asked: &[bool],
    care: H,
    out: NetWords,
    levels: &mut Vec<Option<u8>>,
) -> Result<(), Spent>
    requires nets { All (λ (n : NetValue). n.0 < length asked.now) part.now.nets }
    requires once { (i j n : ℕ) → IsPlace part.now i n → IsPlace part.now j n → i ≡ j }
    requires levels { length levels.old.items ≡ length asked.now }
    requires care { IsLive store.old care }
    requires out { IsSpan store.old out.span × IsFilled store.old out.span × (out.span.len ≡ net_words out.source * length part.now.nets) × (out.span.len < 2 ^ 32) }
    ensures adds { AddsNodes store.old store.new }
    ensures len { length levels.new.items ≡ length levels.old.items }
    ensures gives { IfOk result (λ _. AreJudged out.source part.now asked.now (function_of store.old care) (strong_at store.old out) (length part.now.nets) levels.old.items levels.new.items) }
    ensures few { (u : ℕ) → IsWithin u (function_of store.old care) → IsSpanWithin u store.old out.span → Counts u ((out.source + 1) * length part.now.nets) store.old store.new result }
{
    store.sound();
    let nets = part.nets.as_slice();
    for i in 0..nets.len() {
        match judge_place(store, nets[i], i, asked, care, out, levels) {
            Ok(()) => {}
            Err(spent) => return Err(spent),
        }
    }
    Ok(())
}
