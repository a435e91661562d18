//! The nets and holds of the circuits of the chain, and what a valuation gives there.

ghost use Rattle.checked_chain.specs.Holds.{ChainKeepsHolds, ConstraintsAreSame, EndsStayShown, GroupsAreSame, SettingsAreSame, VariablesAreSame};

/// Each circuit of the chain has the nets of the flat circuit, and its holds but for the places of the instances at their ends.
pub fn chain_keeps_holds()
    ensures { ChainKeepsHolds }
{}

/// No end of a hold names an instance inside a whole one, where no hold is given by a rule for a cell inside one.
pub fn ends_stay_shown()
    ensures { EndsStayShown }
{}

/// The groups of the holds are those of the flat circuit, where no end names an instance inside a whole one.
pub fn groups_are_same()
    ensures { GroupsAreSame }
{}

/// So a valuation gives the same bits.
pub fn settings_are_same()
    ensures { SettingsAreSame }
{}

/// And the variables have the same names.
pub fn variables_are_same()
    ensures { VariablesAreSame }
{}

/// And the same valuations meet the constraints.
pub fn constraints_are_same()
    ensures { ConstraintsAreSame }
{}
