//! The arcs of the circuits of the chain have no cycle.

ghost use Rattle.checked_chain.specs.Arcs.{ArcsAreOfChoice, ChainIsAcyclic, CircuitsAreAcyclic};

/// At each place of the chain the arcs have no cycle in a phase, where those of the flat circuit have none.
pub fn chain_is_acyclic()
    ensures { ChainIsAcyclic }
{}

/// An arc of a circuit with its links is one of the circuit with the choice, where phases have different names, and the outputs of
/// each whole cell different signals.
pub fn arcs_are_of_choice()
    ensures { ArcsAreOfChoice }
{}

/// So the arcs of each circuit of the chain have no cycle.
pub fn circuits_are_acyclic()
    ensures { CircuitsAreAcyclic }
{}
