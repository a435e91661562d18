//! Where nothing is wrong in the one circuit nothing is wrong in the other.

ghost use Rattle.replaced_cells.specs.Agreement.{AgreementGoesDown, AgreementGoesUpByFaults, AgreementIsTransitive, OneMoreWholeAgreesByFaults};

/// Where nothing is wrong with the instance whole, nothing is wrong with the cell in its place: there is a solution, it is defined, and
/// no fault of any kind stands. It asks that the circuit has exactly one solution.
pub fn agreement_goes_down()
    ensures { AgreementGoesDown }
{}

/// The other way round it is so if the faults of the bare stage tell that something is wrong in the circuit: without a fight, a float and
/// a broken constraint with the instance whole both circuits have the same bits, so that each later fault stands in both.
pub fn agreement_goes_up_by_faults()
    ensures { AgreementGoesUpByFaults }
{}

/// So the two comparisons agree in all phases, where both circuits always have exactly one solution, their valuations are the same, and in
/// each phase and at each valuation the faults of the bare stage tell so much.
pub fn one_more_whole_agrees_by_faults()
    ensures { OneMoreWholeAgreesByFaults }
{}

/// And step by step along a chain of circuits.
pub fn agreement_is_transitive()
    ensures { AgreementIsTransitive }
{}
