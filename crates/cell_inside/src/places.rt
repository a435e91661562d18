//! The places of a cell, itself and its instances at all depths, in a larger netlist.

ghost use Rattle.cell_inside.specs.Shifted.{DeeperIsSame, PlacesAreShifted};

/// Where no card of a cell, or below it, names a global net, the places in any place of that cell are, one for one, those of
/// the cell alone: supplies stay, ports are at the nets to which they are tied, own nets at a distance, and each name on a card
/// is so moved too.
pub fn places_are_shifted()
    ensures { PlacesAreShifted }
{}

/// Where the instances of a cell stand at most so deep, going down deeper finds no more places.
pub fn deeper_is_same()
    ensures { DeeperIsSame }
{}
