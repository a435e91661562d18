//! A search back over the arcs that lead to a number, and the cycle through it.

ghost use Rattle.std.specs.Prelude.{◌≡◌, ℕ, ◌<◌, ◌≤◌, ◌++◌, ◌∷◌, [], List, Some, length, replicate, slice_get, OnOk, IfOk, IfSome, IsNone};
ghost use Rattle.vrt_model.specs.Known.{IsCycle};
ghost use Rattle.graphs.specs.Graphs.{ArcIn, AreInside};
ghost use Rattle.graphs.specs.Trails.{AreDone, AreFalling, HasMet, IsAround, IsTrail, IsWay, LeadOn, place_at};

use crate::graph::{append, sources_at};
use std::alloc::Global;
use vrt_model::{NoMemory, Seq};

/// A number that was met, and the place of the one to which an arc leads from it.
#[derive(Clone, Copy)]
pub(crate) struct Met {
    pub(crate) node: u32,
    pub(crate) next: usize,
}

/// Adds an entry at the end.
fn add(list: &mut Seq<Met>, entry: Met) -> Result<(), NoMemory>
    ensures { OnOk result (list.new ≡ list.old ++ entry ∷ []) }
{
    match list.push(entry) {
        Ok(()) => Ok(()),
        Err(_) => Err(NoMemory),
    }
}

/// The place of a number, 0 where it was not met.
fn place_at(places: &Vec<usize>, n: u32) -> usize
    ensures { result ≡ place_at places.now.items n }
{
    if (n as usize) < places.len() {
        places[n as usize]
    } else {
        0
    }
}

/// Meets a number from which an arc leads to an entry, unless it was met before.
fn meet(places: &mut Vec<usize>, met: &mut Seq<Met>, node: u32, next: usize) -> Result<(), NoMemory>
    requires { next < length met.old }
    ensures { OnOk result (HasMet places.old.items places.new.items met.old met.new (node ∷ []) next) }
{
    if (node as usize) < places.len() && place_at(places, node) == 0 {
        let place = met.len();
        add(met, Met { node, next })?;
        places[node as usize] = place;
    }
    Ok(())
}

/// Meets numbers from which arcs lead to an entry.
fn meet_all(
    places: &mut Vec<usize>,
    met: &mut Seq<Met>,
    numbers: &[u32],
    next: usize,
) -> Result<(), NoMemory>
    requires { next < length met.old }
    ensures { OnOk result (HasMet places.old.items places.new.items met.old met.new numbers.now next) }
{
    for number in numbers {
        meet(places, met, *number, next)?;
    }
    Ok(())
}

/// The entry at a place.
fn entry_at(met: &[Met], at: usize) -> Met
    requires { at < length met.now }
    ensures { slice_get met.now at ≡ Some result }
{
    met[at]
}

/// No number was met.
fn no_places(alloc: Global, count: usize) -> Result<Vec<usize>, NoMemory>
    ensures { IfOk result (λ places. places.items ≡ replicate count 0) }
{
    match vec![in alloc; 0usize; count] {
        Ok(places) => Ok(places),
        Err(_) => Err(NoMemory),
    }
}

/// What was met from a number on: where it was met, and in which order.
struct Trail {
    places: Vec<usize>,
    met: Seq<Met>,
}

/// By hand, so that letting go of one is a call.
impl Drop for Trail {
    fn drop(self) {
        let Trail {
            places: _places,
            met: _met,
        } = self;
    }
}

/// Meets all numbers from which arcs lead to a number, over others too.
fn trail_from(alloc: Global, sources: &[Seq<u32>], first: u32) -> Result<Trail, NoMemory>
    requires inside { AreInside sources.now }
    requires there { first < length sources.now }
    ensures trail { IfOk result (λ t. IsTrail sources.now first t.places.items t.met) }
    ensures done { IfOk result (λ t. AreDone sources.now (length t.met) t.places.items t.met) }
{
    let mut places = no_places(alloc, sources.len())?;
    let mut met = Seq::new(alloc);
    add(
        &mut met,
        Met {
            node: first,
            next: 0,
        },
    )?;
    let mut at = 0;
    'back: while at < met.len() {
        let entry = entry_at(met.as_slice(), at);
        meet_all(&mut places, &mut met, sources_at(sources, entry.node), at)?;
        at += 1;
    }
    Ok(Trail { places, met })
}

/// The numbers on the way from an entry to the first.
fn way_from(alloc: Global, met: &[Met], place: usize) -> Result<Seq<u32>, NoMemory>
    requires there { place < length met.now }
    requires later { 0 < place }
    requires falls { AreFalling met.now }
    ensures { IfOk result (λ nodes. (sources : List (List ℕ)) → LeadOn sources met.now → IsWay sources met.now place 0 nodes) }
{
    let mut nodes = Seq::new(alloc);
    let mut at = place;
    'on: while at != 0 {
        let entry = entry_at(met, at);
        append(&mut nodes, entry.node)?;
        at = entry.next;
    }
    Ok(nodes)
}

/// A cycle that begins with a number, if the number is on any.
pub(crate) fn cycle_at(
    alloc: Global,
    sources: &[Seq<u32>],
    first: u32,
) -> Result<Option<Seq<u32>>, NoMemory>
    requires inside { AreInside sources.now }
    requires there { first < length sources.now }
    ensures found { IfOk result (λ o. IfSome o (λ nodes. IsAround (ArcIn sources.now) first nodes)) }
    ensures none { IfOk result (λ o. IsNone o → (others : List ℕ) → ¬ IsCycle (ArcIn sources.now) (first ∷ others)) }
{
    let trail = trail_from(alloc, sources, first)?;
    let place = place_at(&trail.places, first);
    if place == 0 {
        return Ok(None);
    }
    let nodes = way_from(alloc, trail.met.as_slice(), place)?;
    Ok(Some(nodes))
}
