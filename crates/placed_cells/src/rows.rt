//! The own nets of the places of an unrolled cell.

ghost use Rattle.placed_cells.specs.Rows.{OwnNetsAreApart, OwnNetsAreListed, PlacesAreInRow};

/// A place and all places in it have their own nets in a row, in the order of the places: none is left out between them.
pub fn places_are_in_row()
    ensures { PlacesAreInRow }
{}

/// The own nets of two places are apart, and in the order of the places.
pub fn own_nets_are_apart()
    ensures { OwnNetsAreApart }
{}

/// Each own net of a place is a net of the flat circuit, plain and with its path name, so far behind the first one of that place
/// as it is mentioned behind it there.
pub fn own_nets_are_listed()
    ensures { OwnNetsAreListed }
{}
