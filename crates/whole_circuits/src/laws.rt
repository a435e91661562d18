//! Laws of the choice of instances, each the contract of a function that does nothing.

ghost use Rattle.whole_circuits.specs.Chosen.{AllAreDecided, DecidedGrow, TestsTell};

/// An instance may be left whole besides those before it exactly where it passes the tests of its cell, of its outputs and of
/// arcs.
pub fn tests_tell()
    ensures { TestsTell }
{}

/// What is decided of instances stays so where the choice changes further on alone; and where each instance is decided, the
/// choice is that of the definition.
pub fn one_by_one()
    ensures grow { DecidedGrow }
    ensures all { AllAreDecided }
{}
