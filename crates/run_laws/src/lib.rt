//! The law of runs: in a comparison that is equal each run stays related and shows the model's bits where they are not
//! free. Laws alone, each the contract of a function that does nothing.
#![tactic(auto)]

ghost use Rattle.run_laws.specs.Supported.{IsSound};
ghost use Rattle.run_laws.specs.WellFormed.{IsWellFormed};
ghost use Rattle.vrt_model.specs.Comparison.{Comparison};
ghost use Rattle.vrt_model.specs.Equal.{IsEqual};
ghost use Rattle.vrt_model.specs.Runs.{RunsMatch};

/// The law of runs, from what is asked of a comparison: where each related memory with inputs that meet the `assume` lines is a
/// valuation, and groups and holds are in range, each run of an equal comparison from a related memory stays related, and at
/// each step each observed output has the model's bit or is free.
#[tactic(auto, using(crate::proofs::RunsFromEqual::runs))]
pub fn runs()
    ensures { (k : Comparison) → IsSound k → IsEqual k → RunsMatch k }
{}

/// The law of runs, for each comparison of a well-formed circuit, with the groups of its holds and with inputs of the model at
/// input nets. Whole instances may stand in the circuit.
#[tactic(auto, using(crate::proofs::WellFormed::equal_runs))]
pub fn equal_runs()
    ensures { (k : Comparison) → IsWellFormed k → IsEqual k → RunsMatch k }
{}
