//! The parts of the kept circuit, solved at every valuation at once; what they say of the nets is copied to the nets.

ghost use Rattle.std.specs.Prelude.{◌≡◌, ℕ, ◌+◌, ◌*◌, ◌^◌, ◌<◌, ◌≤◌, [], ◌∷◌, All, length, IfOk, false, is_some, true, slice_set, sum_by};
ghost use Rattle.bdd_core.specs.Store.{IsSpan};
ghost use Rattle.bdd_core.specs.Words.{IsApart, IsFilled, word_at};
ghost use Rattle.bdd_ops.specs.Counting.{IsSpanWithin};
ghost use Rattle.channel_parts.specs.declared.part.Part.{Part};
ghost use Rattle.circuit_faults.specs.KeptResults.{HasKeptSpans, WritesKept};
ghost use Rattle.circuit_faults.specs.KeptScans.{IsCopiedTo, IsInSolved, IsPartReached, IsReachedIn, SpendsReach};
ghost use Rattle.circuit_faults.specs.Scans.{IsInside, free_part};
ghost use Rattle.path_fixpoint.specs.Parts.{AreSoftInside, IsPart, IsPlace};
ghost use Rattle.path_fixpoint.specs.Reaching.{slot_of};
ghost use Rattle.path_fixpoint.specs.Spending.{HasOneHold, solving_operations};
ghost use Rattle.path_fixpoint.specs.Strengths.{net_words, word_of};
ghost use Rattle.vrt_model.specs.Lists.{Among};
ghost use Rattle.vrt_model.specs.Networks.{HasRanges};
ghost use Rattle.vrt_model.specs.State.{output_pins};
ghost use Rattle.whole_steps.specs.Tables.{AreDrivers};

use crate::circuit::{part_driver, words_of};
use crate::spans::KeptSpans;
use crate::undriven::undriven_net;
use bdd_core::{Spent, Store, ZERO};
use channel_parts::Part;
use node_pool::Span;
use path_fixpoint::{NetWords, reached, solve_part};
use vrt_model::{Circuit, Net};
use whole_steps::WholeTable;

/// Copies the handle that says where a value reaches the net at a place of a part to the word of the net.
fn copy_word(store: &mut Store, net: Net, place: usize, value: bool, out: NetWords, to: Span)
    requires out { IsSpan store.old out.span × IsFilled store.old out.span }
    requires place { (net_words out.source * place + net_words out.source ≤ out.span.len) × (out.span.len < 2 ^ 32) }
    requires to { IsSpan store.old to × (net.0 < to.len) }
    ensures { store.new ≡ record store.old { words = slice_set store.old.words (to.start + net.0) (word_at store.old out.span (word_of out (slot_of out value) place)) } }
{
    let handle = reached(store, out, place, value);
    store.write(to, net.0, handle.0);
}

/// Copies for each net of a part the handle that says where a value reaches it.
fn copy_reach(store: &mut Store, part: &Part, value: bool, out: NetWords, to: Span)
    requires nets { All (λ (n : Net). n.0 < to.len) part.now.nets }
    requires once { (i j n : ℕ) → IsPlace part.now i n → IsPlace part.now j n → i ≡ j }
    requires out { IsSpan store.old out.span × IsFilled store.old out.span × (out.span.len ≡ net_words out.source * length part.now.nets) × (out.span.len < 2 ^ 32) }
    requires to { IsSpan store.old to }
    requires apart { IsApart to out.span }
    ensures { IsCopiedTo part.now value out to (length part.now.nets) store.old store.new }
{
    store.sound();
    let nets = part.nets.as_slice();
    for i in 0..nets.len() {
        let net = nets[i];
        copy_word(store, net, i, value, out, to);
    }
}

/// Solves a part of the kept circuit, where its devices have the bits of the gates, and writes to the words of its nets
/// where 0 and where 1 reach them: nowhere, where nothing drives its net.
fn solve_kept(
    store: &mut Store,
    circuit: &Circuit,
    wholes: WholeTable<'_>,
    part: &Part,
    spans: KeptSpans,
) -> Result<(), Spent>
    requires circuit { HasRanges circuit.now }
    requires drivers { AreDrivers circuit.now (output_pins circuit.now) wholes.drivers.now }
    requires part { IsPart circuit.now part.now }
    requires soft { AreSoftInside circuit.now part.now }
    requires spans { HasKeptSpans circuit.now (part.now ∷ []) spans store.old }
    ensures writes { WritesKept spans store.old store.new }
    ensures gives { IfOk result (λ _. IsPartReached circuit.now part.now spans store.old store.new) }
    ensures few { HasOneHold circuit.now → (u : ℕ) → IsSpanWithin u store.old spans.gates → IsSpanWithin u store.old spans.roots → SpendsReach u (solving_operations circuit.now part.now) spans (IsInside part.now) store.old store.new result }
{
    store.sound();
    if let Some(net) = undriven_net(circuit, wholes, part) {
        store.write(spans.zeros, net.0, ZERO.0);
        store.write(spans.ones, net.0, ZERO.0);
        return Ok(());
    }
    let out = words_of(circuit, part, spans.out);
    match solve_part(store, circuit, part, spans.gates, spans.roots, out.span) {
        Ok(()) => {}
        Err(spent) => return Err(spent),
    }
    copy_reach(store, part, false, out, spans.zeros);
    copy_reach(store, part, true, out, spans.ones);
    Ok(())
}

/// Whether an output at the first net of a part is marked as free.
fn has_free(wholes: WholeTable<'_>, part: &Part) -> bool
    ensures { result ≡ is_some (free_part wholes.entry.drivers.now part.now) }
{
    part_driver(wholes, part).is_some()
}

/// Solves all parts of the kept circuit but those of free outputs of whole instances, and writes to the words of their nets where 0 and
/// where 1 reach them.
pub(crate) fn solve_parts(
    store: &mut Store,
    circuit: &Circuit,
    wholes: WholeTable<'_>,
    parts: &[Part],
    spans: KeptSpans,
) -> Result<(), Spent>
    requires circuit { HasRanges circuit.now }
    requires drivers { AreDrivers circuit.now (output_pins circuit.now) wholes.drivers.now }
    requires parts { (part : Part) → Among parts.now part → IsPart circuit.now part }
    requires soft { (part : Part) → AreSoftInside circuit.now part }
    requires spans { HasKeptSpans circuit.now parts.now spans store.old }
    ensures writes { WritesKept spans store.old store.new }
    ensures gives { IfOk result (λ _. (n : ℕ) → IsInSolved wholes.entry.drivers.now parts.now (length parts.now) n → IsReachedIn circuit.now parts.now spans (length parts.now) store.old store.new n) }
    ensures few { HasOneHold circuit.now → (u : ℕ) → IsSpanWithin u store.old spans.gates → IsSpanWithin u store.old spans.roots → SpendsReach u (sum_by (solving_operations circuit.now) parts.now) spans (IsInSolved wholes.entry.drivers.now parts.now (length parts.now)) store.old store.new result }
{
    store.sound();
    for part in parts {
        if has_free(wholes, part) {
            continue;
        }
        match solve_kept(store, circuit, wholes, part, spans) {
            Ok(()) => {}
            Err(spent) => return Err(spent),
        }
    }
    Ok(())
}
