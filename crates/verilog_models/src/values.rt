//! The covers of expressions.

ghost use Rattle.std.specs.Prelude.{◌≡◌, ◌+◌, ◌++◌, ◌∷◌, [], map, IfOk, OnOk};
ghost use Rattle.verilog_expression.specs.Grammar.{seen};
ghost use Rattle.verilog_models.specs.Covers.{all_covers, all_own, all_signals, assigned_covers, function_of, inputs_of, operand_covers, own, own_inside, signal_of, value_covers};

use crate::functions::{Function, one, three, two};
use crate::made::Made;
use std::alloc::Global;
use verilog_expression::Expression;
use vrt_model::{NoMemory, Seq, Text};

/// Adds the covers of an expression, and answers its signal.
fn add_value(alloc: Global, made: &mut Made, line: u32, e: &Expression) -> Result<Text, NoMemory>
    ensures covers { OnOk result (made.new.covers ≡ made.old.covers ++ value_covers line made.old.count (seen e.now)) }
    ensures count { OnOk result (made.new.count ≡ made.old.count + own (seen e.now)) }
    ensures signal { IfOk result (λ signal. signal ≡ signal_of made.old.count (seen e.now)) }
{
    match e {
        Expression::Net(net) => Text::from_bytes(alloc, net.as_bytes()),
        Expression::Constant(bit) => {
            made.add_own(alloc, line, Function::Constant(*bit), Seq::new(alloc))
        }
        Expression::Not(inner) => {
            let signal = add_value(alloc, made, line, inner)?;
            let inputs = one(alloc, signal)?;
            made.add_own(alloc, line, Function::Not, inputs)
        }
        Expression::And(left, right) => {
            let first = add_value(alloc, made, line, left)?;
            let second = add_value(alloc, made, line, right)?;
            let inputs = two(alloc, first, second)?;
            made.add_own(alloc, line, Function::And, inputs)
        }
        Expression::Xor(left, right) => {
            let first = add_value(alloc, made, line, left)?;
            let second = add_value(alloc, made, line, right)?;
            let inputs = two(alloc, first, second)?;
            made.add_own(alloc, line, Function::Xor, inputs)
        }
        Expression::Or(left, right) => {
            let first = add_value(alloc, made, line, left)?;
            let second = add_value(alloc, made, line, right)?;
            let inputs = two(alloc, first, second)?;
            made.add_own(alloc, line, Function::Or, inputs)
        }
        Expression::Choice(condition, left, right) => {
            let first = add_value(alloc, made, line, condition)?;
            let second = add_value(alloc, made, line, left)?;
            let third = add_value(alloc, made, line, right)?;
            let inputs = three(alloc, first, second, third)?;
            made.add_own(alloc, line, Function::Choice, inputs)
        }
    }
}

/// Adds the covers of two expressions, and answers their signals.
fn add_two(
    alloc: Global,
    made: &mut Made,
    line: u32,
    left: &Expression,
    right: &Expression,
) -> Result<Seq<Text>, NoMemory>
    ensures covers { OnOk result (made.new.covers ≡ made.old.covers ++ (value_covers line made.old.count (seen left.now) ++ value_covers line (made.old.count + own (seen left.now)) (seen right.now))) }
    ensures count { OnOk result (made.new.count ≡ made.old.count + (own (seen left.now) + own (seen right.now))) }
    ensures signals { IfOk result (λ signals. signals ≡ signal_of made.old.count (seen left.now) ∷ signal_of (made.old.count + own (seen left.now)) (seen right.now) ∷ []) }
{
    let first = add_value(alloc, made, line, left)?;
    let second = add_value(alloc, made, line, right)?;
    two(alloc, first, second)
}

/// Adds the covers of the operands of an expression, and answers the signals that what is outermost in it reads.
fn add_operands(
    alloc: Global,
    made: &mut Made,
    line: u32,
    e: &Expression,
) -> Result<Seq<Text>, NoMemory>
    ensures covers { OnOk result (made.new.covers ≡ made.old.covers ++ operand_covers line made.old.count (seen e.now)) }
    ensures count { OnOk result (made.new.count ≡ made.old.count + own_inside (seen e.now)) }
    ensures signals { IfOk result (λ signals. signals ≡ inputs_of made.old.count (seen e.now)) }
{
    match e {
        Expression::Net(net) => {
            let signal = Text::from_bytes(alloc, net.as_bytes())?;
            one(alloc, signal)
        }
        Expression::Constant(_) => Ok(Seq::new(alloc)),
        Expression::Not(inner) => {
            let signal = add_value(alloc, made, line, inner)?;
            one(alloc, signal)
        }
        Expression::And(left, right) => add_two(alloc, made, line, left, right),
        Expression::Xor(left, right) => add_two(alloc, made, line, left, right),
        Expression::Or(left, right) => add_two(alloc, made, line, left, right),
        Expression::Choice(condition, left, right) => {
            let first = add_value(alloc, made, line, condition)?;
            let second = add_value(alloc, made, line, left)?;
            let third = add_value(alloc, made, line, right)?;
            three(alloc, first, second, third)
        }
    }
}

/// The function of what is outermost in an expression.
fn outer_function(e: &Expression) -> Function
    ensures { result ≡ function_of (seen e.now) }
{
    match e {
        Expression::Net(_) => Function::Same,
        Expression::Constant(bit) => Function::Constant(*bit),
        Expression::Not(_) => Function::Not,
        Expression::And(_, _) => Function::And,
        Expression::Xor(_, _) => Function::Xor,
        Expression::Or(_, _) => Function::Or,
        Expression::Choice(_, _, _) => Function::Choice,
    }
}

/// Adds the covers that give a net the value of an expression.
pub fn add_assigned(
    alloc: Global,
    made: &mut Made,
    line: u32,
    net: &[u8],
    e: &Expression,
) -> Result<(), NoMemory>
    ensures covers { OnOk result (made.new.covers ≡ made.old.covers ++ assigned_covers line made.old.count net.now (seen e.now)) }
    ensures count { OnOk result (made.new.count ≡ made.old.count + own_inside (seen e.now)) }
{
    let inputs = add_operands(alloc, made, line, e)?;
    let output = Text::from_bytes(alloc, net)?;
    made.add(alloc, line, outer_function(e), inputs, output)
}

/// Adds the covers of expressions from the left, and answers their signals.
pub fn add_values(
    alloc: Global,
    made: &mut Made,
    line: u32,
    values: &[Expression],
) -> Result<Seq<Text>, NoMemory>
    ensures covers { OnOk result (made.new.covers ≡ made.old.covers ++ all_covers line made.old.count (map seen values.now)) }
    ensures count { OnOk result (made.new.count ≡ made.old.count + all_own (map seen values.now)) }
    ensures signals { IfOk result (λ signals. signals ≡ all_signals made.old.count (map seen values.now)) }
{
    let mut signals = Seq::new(alloc);
    let mut left = values;
    'values: while let Some((value, behind)) = left.split_first() {
        let signal = add_value(alloc, made, line, value)?;
        signals.append(signal)?;
        left = behind;
    }
    Ok(signals)
}
