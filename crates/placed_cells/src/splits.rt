//! A place, those in it, and all others.

ghost use Rattle.placed_cells.specs.Splits.{PlacesInStandTogether};

/// Among all places of an unrolled cell those in a place stand together behind it; it is tied to nets outside, and no name in a
/// place before them or behind them is one of their own nets.
pub fn places_in_stand_together()
    ensures { PlacesInStandTogether }
{}
