//! The sub-models of instances, and the covers of the constants that they are tied to.

ghost use Rattle.std.specs.Prelude.{◌≡◌, ◌+◌, ◌++◌, map, option_map, IfOk, OnOk};
ghost use Rattle.verilog_models.specs.Covers.{own, signal_of, value_covers};
ghost use Rattle.verilog_models.specs.Gates.{actual_covers, actual_own, actual_value, sub_of, tie_of, ties_covers, ties_of, ties_own};
ghost use Rattle.verilog_source.specs.Positions.{seen_actual, seen_tie};

use crate::functions::Function;
use crate::made::Made;
use std::alloc::Global;
use verilog_source::{Actual, PortTie};
use vrt_model::{NoMemory, Seq, SubLine, Text, Tie};

/// The signal that a port is tied to; a constant gets one.
fn add_actual(alloc: Global, made: &mut Made, line: u32, actual: &Actual) -> Result<Text, NoMemory>
    ensures covers { OnOk result (made.new.covers ≡ made.old.covers ++ value_covers line made.old.count (actual_value (seen_actual actual.now))) }
    ensures count { OnOk result (made.new.count ≡ made.old.count + own (actual_value (seen_actual actual.now))) }
    ensures signal { IfOk result (λ signal. signal ≡ signal_of made.old.count (actual_value (seen_actual actual.now))) }
{
    match actual {
        Actual::Net(net) => Text::from_bytes(alloc, net.as_bytes()),
        Actual::Constant(bit) => {
            made.add_own(alloc, line, Function::Constant(*bit), Seq::new(alloc))
        }
    }
}

/// Adds a tie, unless it is one to nothing.
fn add_tie(
    alloc: Global,
    made: &mut Made,
    ties: &mut Seq<Tie>,
    line: u32,
    tie: &PortTie,
) -> Result<(), NoMemory>
    ensures covers { OnOk result (made.new.covers ≡ made.old.covers ++ actual_covers line made.old.count (option_map seen_actual tie.now.actual)) }
    ensures count { OnOk result (made.new.count ≡ made.old.count + actual_own (option_map seen_actual tie.now.actual)) }
    ensures ties { OnOk result (ties.new ≡ ties.old ++ tie_of made.old.count tie.now.port (option_map seen_actual tie.now.actual)) }
{
    match &tie.actual {
        None => Ok(()),
        Some(actual) => {
            let signal = add_actual(alloc, made, line, actual)?;
            let port = Text::from_bytes(alloc, tie.port.as_bytes())?;
            ties.append(Tie {
                formal: port,
                actual: signal,
            })
        }
    }
}

/// Adds ties, in their order.
fn add_ties(
    alloc: Global,
    made: &mut Made,
    line: u32,
    ties: &[PortTie],
) -> Result<Seq<Tie>, NoMemory>
    ensures covers { OnOk result (made.new.covers ≡ made.old.covers ++ ties_covers line made.old.count (map seen_tie ties.now)) }
    ensures count { OnOk result (made.new.count ≡ made.old.count + ties_own (map seen_tie ties.now)) }
    ensures ties { IfOk result (λ found. found ≡ ties_of made.old.count (map seen_tie ties.now)) }
{
    let mut found = Seq::new(alloc);
    let mut left = ties;
    'ties: while let Some((tie, behind)) = left.split_first() {
        add_tie(alloc, made, &mut found, line, tie)?;
        left = behind;
    }
    Ok(found)
}

/// The sub-model of an instance.
pub fn add_instance(
    alloc: Global,
    made: &mut Made,
    line: u32,
    model: &[u8],
    ties: &[PortTie],
) -> Result<SubLine, NoMemory>
    ensures covers { OnOk result (made.new.covers ≡ made.old.covers ++ ties_covers line made.old.count (map seen_tie ties.now)) }
    ensures count { OnOk result (made.new.count ≡ made.old.count + ties_own (map seen_tie ties.now)) }
    ensures sub { IfOk result (λ sub. sub ≡ sub_of line made.old.count model.now (map seen_tie ties.now)) }
{
    let name = Text::from_bytes(alloc, model)?;
    let ties = add_ties(alloc, made, line, ties)?;
    Ok(SubLine {
        line,
        model: name,
        ties,
    })
}
