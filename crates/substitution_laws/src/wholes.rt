//! The whole instances of a circuit.

ghost use Rattle.substitution_laws.specs.Wholes.{CircuitsHaveRanges, CutsHaveRanges, TrialsAreWired, WholesAreDetermined, WholesStandForCells};

/// A whole instance stands for its cell: it has its model, its inputs and its outputs, and links from each input from which covers lead to
/// one.
pub fn wholes_stand_for_cells()
    ensures { WholesStandForCells }
{}

/// So its outputs follow from the observed inputs that are linked to them.
pub fn wholes_are_determined()
    ensures { WholesAreDetermined }
{}

/// The numbers of nets and signals, the levels and the sizes of the circuit are in range.
pub fn circuits_have_ranges()
    ensures { CircuitsHaveRanges }
{}

/// So are those of the circuit of a cell of which some instances are left whole, each of a well-formed cell.
pub fn cuts_have_ranges()
    ensures { CutsHaveRanges }
{}

/// So are those of the circuit with instances that are tried, whatever is told of drives, and the outputs of these are at plain nets.
pub fn trials_are_wired()
    ensures { TrialsAreWired }
{}
