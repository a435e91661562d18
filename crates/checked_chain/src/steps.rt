//! The steps of the chain, and its ends.

ghost use Rattle.checked_chain.specs.Steps.{ChainBeginsFlat, ChainEndsChecked, ChainIsThere, NoneMoreIsSame, OneMoreIsNext, PlacesAloneCount};

/// The instances before one that is chosen, and that one, are the instances before the next.
pub fn one_more_is_next()
    ensures { OneMoreIsNext }
{}

/// Where an instance is not chosen, nothing changes.
pub fn none_more_is_same()
    ensures { NoneMoreIsSame }
{}

/// The chain begins with the flat circuit.
pub fn chain_begins_flat()
    ensures { ChainBeginsFlat }
{}

/// What is chosen past the last instance does not count.
pub fn places_alone_count()
    ensures { PlacesAloneCount }
{}

/// The chain ends with the circuit in which all that are chosen are whole.
pub fn chain_ends_checked()
    ensures { ChainEndsChecked }
{}

/// Where that circuit is there, with its links, so is each one of the chain.
pub fn chain_is_there()
    ensures { ChainIsThere }
{}
