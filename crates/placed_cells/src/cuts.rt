//! An instance in a circuit in which others are left whole.

ghost use Rattle.placed_cells.specs.Cuts.{CutShowsInside};

/// The circuit in which some of the instances before one are left whole shows that instance and all in it, where it is in none of
/// them. So what is asked of a circuit in which it is to be left whole too is asked at its ports alone.
pub fn cut_shows_inside()
    ensures { CutShowsInside }
{}
