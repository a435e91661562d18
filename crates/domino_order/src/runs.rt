//! One run over a port, at every valuation at once.

ghost use Rattle.std.specs.Prelude.{◌≡◌, ℕ, ◌+◌, ◌<◌, ◌≤◌, ◌++◌, All, length, map, true, IfErr, IfOk};
ghost use Rattle.bdd_core.specs.Store.{IsLive, IsSpan};
ghost use Rattle.bdd_ops.specs.Ops.{bits_of};
ghost use Rattle.domino_order.specs.Beginnings.{HasFirst};
ghost use Rattle.domino_order.specs.Runs.{EndIs, FailsSomewhere, IsAsked, IsBound, IsLooked, IsRoomFor, MayPass, RunGives, asked_variables, first_bits, of_asked, run_operations};
ghost use Rattle.phase_check.specs.States.{KeepsRoom};
ghost use Rattle.vrt_model.specs.Lists.{has_number};

use crate::beginnings::{beginnings, near_ends};
use crate::ends::step_ends;
use crate::found::{NetFound, read_bits};
use crate::prepared::{Asked, prepare};
use crate::step::failing;
use bdd_core::{H, Spent, Store};
use bdd_ops::least;
use node_pool::Span;
use std::alloc::Global;
use vrt_model::{NoMemory, Seq, Valuation};

/// What a look at all steps of a net finds.
#[derive(Clone, Copy)]
pub struct Looked {
    /// The valuations at which they end.
    pub ends: H,
    /// Where some begin that fail; none where each holds.
    pub found: Option<H>,
    /// One word for each variable.
    pub least: Span,
}

/// Looks at the steps of a net below a bound, if there is one, in a store without nodes.
fn look(
    store: &mut Store,
    asked: Asked<'_>,
    net: u32,
    bound: &Option<Valuation>,
) -> Result<Looked, Spent>
    requires asked { IsAsked asked }
    requires store { IsRoomFor asked store.old }
    requires net { has_number asked.rising.nets.now net ≡ true }
    requires bound { IsBound (of_asked asked) asked.rising.phase asked.rising.nets.now net bound.now }
    ensures gives { IfOk result (λ looked. IsLooked asked.entry net bound.now looked store.new) }
    ensures spent { IfErr result (λ _. MayPass (asked_variables asked.entry) store.old.budget (run_operations asked.entry)) }
    ensures keeps { KeepsRoom store.old store.new }
{
    store.sound();
    let start = match prepare(store, asked) {
        Ok(start) => start,
        Err(spent) => return Err(spent),
    };
    let words = start.words;
    let ends = match step_ends(store, asked.order, net, bound, start.care, words.given) {
        Ok(ends) => ends,
        Err(spent) => return Err(spent),
    };
    let care = match beginnings(
        store,
        asked.order,
        asked.arrivals,
        net,
        bound,
        ends,
        words.given,
    ) {
        Ok(care) => care,
        Err(spent) => return Err(spent),
    };
    match failing(store, asked.rising, net, care, words) {
        Ok(found) => Ok(Looked {
            ends,
            found,
            least: start.least,
        }),
        Err(spent) => Err(spent),
    }
}

/// The first bits of a bound; none where there is none.
fn first_bits(alloc: Global, bound: &Option<Valuation>, count: usize) -> Result<Seq<bool>, NoMemory>
    requires bound { HasFirst count bound.now }
    ensures { IfOk result (λ bits. bits ≡ first_bits count bound.now) }
{
    let mut bits = Seq::new(alloc);
    let Some(bound) = bound else {
        return Ok(bits);
    };
    for bit in &bound.bits.as_slice()[..count] {
        bits.append(*bit)?;
    }
    Ok(bits)
}

/// The bits of the least of some ends; those of the bound where there is none.
fn end_bits(
    store: &mut Store,
    alloc: Global,
    near: H,
    words: Span,
    bound: &Option<Valuation>,
    count: usize,
) -> Result<Seq<bool>, NoMemory>
    requires near { IsLive store.old near }
    requires words { IsSpan store.old words × (words.len ≡ store.old.vars) }
    requires bound { HasFirst count bound.now }
    ensures gives { IfOk result (λ bits. EndIs store.old near count bound.now bits) }
    ensures keeps { store.new ≡ record store.old { words = store.new.words } }
    ensures len { length store.new.words ≡ length store.old.words }
{
    store.sound();
    if least(store, near, words) {
        read_bits(store, words, alloc)
    } else {
        first_bits(alloc, bound, count)
    }
}

/// The bits of an end, and behind them those of the arrivals where a step begins.
fn with_arrivals(end: Seq<bool>, arrivals: &[u32], begin: &[bool]) -> Result<Seq<bool>, NoMemory>
    requires arrivals { All (λ (x : ℕ). x < length begin.now) arrivals.now }
    ensures { IfOk result (λ bits. bits ≡ end ++ map (bits_of begin.now) arrivals.now) }
{
    let mut bits = end;
    for variable in arrivals {
        bits.append(begin[*variable as usize])?;
    }
    Ok(bits)
}

/// The bits of a step that fails, of those that begin at the least valuation of a handle.
fn fails(
    store: &mut Store,
    alloc: Global,
    asked: Asked<'_>,
    net: u32,
    bound: &Option<Valuation>,
    looked: Looked,
    at: H,
) -> Result<NetFound, NoMemory>
    requires asked { IsAsked asked }
    requires net { has_number asked.rising.nets.now net ≡ true }
    requires bound { IsBound (of_asked asked) asked.rising.phase asked.rising.nets.now net bound.now }
    requires looked { IsLooked asked net bound.now looked store.old }
    requires found { FailsSomewhere asked net bound.now looked.ends at store.old }
    ensures gives { IfOk result (RunGives asked.entry net bound.now store.old.budget) }
    ensures keeps { KeepsRoom store.old store.new }
{
    store.sound();
    let _net = net;
    let _stands = least(store, at, looked.least);
    let begin = read_bits(store, looked.least, alloc)?;
    let near = match near_ends(
        store,
        asked.order,
        asked.arrivals,
        looked.ends,
        begin.as_slice(),
    ) {
        Ok(near) => near,
        Err(_spent) => return Ok(NetFound::Spent),
    };
    let end = end_bits(store, alloc, near, looked.least, bound, asked.order.len())?;
    let bits = with_arrivals(end, asked.arrivals, begin.as_slice())?;
    Ok(NetFound::Fails(Valuation { bits }))
}

/// Whether a step fails at which the net rises, below a bound if there is one: each holds, or the bits of one that fails, of those at the first place
/// where some do. Want of memory is the only refusal.
///
/// `Spent` comes only with more than four variables and arrivals, where the operations of a run may add more nodes than the budget has.
pub fn run(
    store: &mut Store,
    alloc: Global,
    asked: Asked<'_>,
    net: u32,
    bound: &Option<Valuation>,
) -> Result<NetFound, NoMemory>
    requires asked { IsAsked asked }
    requires store { IsRoomFor asked store.old }
    requires net { has_number asked.rising.nets.now net ≡ true }
    requires bound { IsBound (of_asked asked) asked.rising.phase asked.rising.nets.now net bound.now }
    ensures gives { IfOk result (RunGives asked.entry net bound.now store.old.budget) }
    ensures keeps { KeepsRoom store.old store.new }
{
    store.sound();
    let looked = match look(store, asked, net, bound) {
        Ok(looked) => looked,
        Err(_spent) => return Ok(NetFound::Spent),
    };
    match looked.found {
        None => Ok(NetFound::Holds),
        Some(at) => fails(store, alloc, asked, net, bound, looked, at),
    }
}
