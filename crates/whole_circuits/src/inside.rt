//! The places inside instances that are left whole.

ghost use Rattle.std.specs.Prelude.{◌≡◌, ◌<◌, ◌+◌, ◌++◌, ◌∷◌, [], IfOk, OnOk, length};
ghost use Rattle.whole_circuits.specs.Insides.{AreInsideMarks, AreMarkedBefore, IsCutAt, is_within};
ghost use Rattle.vrt_model.specs.Cut.{Cut};

use crate::places::place_at;
use known_nets::is_marked;
use net_places::{Place, Unrolled};
use std::alloc::Global;
use vrt_model::NoMemory;

/// Whether the place around one is left whole, or is inside an instance that is.
fn is_within(whole: &[bool], inside: &[bool], place: &Place) -> bool
    ensures { result ≡ is_within whole.now inside.now place.now }
{
    if place.depth == 0 {
        return false;
    }
    let around = is_marked(whole, place.around);
    let further = is_marked(inside, place.around);
    around || further
}

/// Adds a mark at the end.
fn add_mark(marks: &mut Vec<bool>, mark: bool) -> Result<(), NoMemory>
    ensures { OnOk result (marks.new.items ≡ marks.old.items ++ mark ∷ []) }
{
    match marks.push(mark) {
        Ok(()) => Ok(()),
        Err(_) => Err(NoMemory),
    }
}

/// Adds the mark of the place behind those that have one: whether it is inside an instance that is left whole.
pub fn add_inside(
    whole: &[bool],
    inside: &mut Vec<bool>,
    unrolled: &Unrolled,
    at: usize,
) -> Result<(), NoMemory>
    requires { at < length unrolled.now.places }
    ensures len { OnOk result (length inside.new.items ≡ length inside.old.items + 1) }
    ensures are { OnOk result ((cut : Cut) → IsCutAt cut unrolled.now whole.now → AreMarkedBefore cut at inside.old.items → AreMarkedBefore cut (at + 1) inside.new.items) }
{
    let mark = is_within(whole, inside.as_slice(), place_at(unrolled, at));
    add_mark(inside, mark)
}

/// Whether each place of an unrolled cell is inside an instance that is left whole: a mark for each place, in their order.
/// It takes time in proportion to the places.
pub fn inside_marks(
    alloc: Global,
    unrolled: &Unrolled,
    whole: &[bool],
) -> Result<Vec<bool>, NoMemory>
    ensures len { IfOk result (λ inside. length inside.items ≡ length unrolled.now.places) }
    ensures are { IfOk result (λ inside. (cut : Cut) → IsCutAt cut unrolled.now whole.now → AreInsideMarks cut inside.items) }
{
    let mut inside = Vec::new(alloc);
    for at in 0..unrolled.places.len() {
        add_inside(whole, &mut inside, unrolled, at)?;
    }
    Ok(inside)
}
