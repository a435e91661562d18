//! What is said of a fault in a circuit of the chain, and of the same place in the flat circuit.

ghost use Rattle.checked_chain.specs.Findings.{DescriptionsMove};

/// What describes a finding describes the same finding of the flat circuit, where it has the values of that one.
pub fn descriptions_move()
    ensures { DescriptionsMove }
{}
