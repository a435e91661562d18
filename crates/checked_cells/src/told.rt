//! What is told of a cell after its verdict.

ghost use Rattle.checked_cells.specs.ToldFacts.{ToldDrivesAreTrue, ToldFactsAreTrue};

/// The drive of an output port of an equal cell, as it is told over the checked circuit, is true of the flat one: its level is the strength
/// that the net of the port always has there.
pub fn told_drives_are_true()
    ensures { ToldDrivesAreTrue }
{}

/// So what is told of a supported cell is true, where what was known of the cells below is, whatever that tells of drives.
pub fn told_facts_are_true()
    ensures { ToldFactsAreTrue }
{}
