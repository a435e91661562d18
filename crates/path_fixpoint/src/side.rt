//! The side of a part from which a round passes marks on.

ghost use Rattle.std.specs.Prelude.{◌≡◌, ◌≤◌, cond, true, false};
ghost use Rattle.path_fixpoint.specs.Parts.{is_on_side};
ghost use Rattle.path_fixpoint.specs.declared.side.Side.TheVariants.{Inside, Outside};

use bdd_core::{H, ZERO};

/// The nets from which a round passes marks on.
#[derive(Clone, Copy)]
pub(crate) enum Side {
    /// Those in the part.
    Inside,
    /// Those outside it.
    Outside,
}

impl Side {
    /// The side of a round, by how many there were before it: the first one passes on what comes from outside.
    pub(crate) fn of_round(before: usize) -> Side
        ensures first { result ≡ Outside → before ≡ 0 }
        ensures later { result ≡ Inside → 1 ≤ before }
    {
        if before == 0 {
            Side::Outside
        } else {
            Side::Inside
        }
    }

    /// Whether no round changes a mark behind one on this side, by whether it changed any itself: inside the part, where it
    /// did not.
    pub(crate) fn is_settled(self, changed: bool) -> bool
        ensures settled { result ≡ true → (self ≡ Inside) × (changed ≡ false) }
        ensures still { self ≡ Inside → changed ≡ false → result ≡ true }
    {
        match self {
            Side::Inside => !changed,
            Side::Outside => false,
        }
    }

    /// Whether an end of a channel is on this side, by its place in the part.
    pub(crate) fn has(self, place: Option<usize>) -> bool
        ensures { result ≡ is_on_side self place }
    {
        match place {
            Some(_) => matches!(self, Side::Inside),
            None => matches!(self, Side::Outside),
        }
    }

    /// What an end of a channel offers to the other one: its signal, where the end is on this side, else nothing.
    pub(crate) fn offered(self, place: Option<usize>, signal: H) -> H
        ensures { result.0 ≡ cond (is_on_side self place) signal.0 0 }
    {
        if self.has(place) {
            return signal;
        }
        ZERO
    }
}
