//! Whole instances that stand for cells.

ghost use Rattle.whole_ranks.specs.WholeCells.{WholeCellsAreDetermined};
ghost use Rattle.whole_ranks.specs.WholePlaces.{WholePlacesStandForCells};

/// A whole instance that stands for an equal cell without latches and holds is determined: its model has an assignment at any
/// reading, and each output has the same bit in two readings that are the same at the observed inputs that are linked to it.
pub fn whole_cells_are_determined()
    ensures { WholeCellsAreDetermined }
{}

/// The whole instance at a place of an unrolled netlist stands for its cell, where its outputs are at plain nets and an input that
/// is not observed around it is not observed in it.
pub fn whole_places_stand_for_cells()
    ensures { WholePlacesStandForCells }
{}
