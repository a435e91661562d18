//! Expressions made of expressions.

ghost use Rattle.std.specs.Prelude.{◌≡◌, IfOk};
ghost use Rattle.verilog_expression.specs.Grammar.{seen};
ghost use Rattle.verilog_expression.specs.Grammar.Formula.{negation, conjunction, parity, disjunction, choice};
ghost use Rattle.verilog_expression.specs.Kept.{seen_opt};
ghost use Rattle.verilog_expression.specs.Readings.{joined, negated};

use crate::tree::Expression;
use std::alloc::Global;
use vrt_model::NoMemory;

/// A box of an expression.
fn boxed(alloc: Global, e: Expression) -> Result<Box<Expression>, NoMemory>
    ensures { IfOk result (λ b. b.value ≡ e) }
{
    match Box::new(alloc, e) {
        Ok(b) => Ok(b),
        Err(_) => Err(NoMemory),
    }
}

/// The two sides of an operator, each in a box.
fn boxed_two(
    alloc: Global,
    left: Expression,
    right: Expression,
) -> Result<(Box<Expression>, Box<Expression>), NoMemory>
    ensures { IfOk result (λ two. (two.0.value ≡ left) × (two.1.value ≡ right)) }
{
    let left = boxed(alloc, left)?;
    let right = boxed(alloc, right)?;
    Ok((left, right))
}

/// An expression behind `~`.
fn not(alloc: Global, e: Expression) -> Result<Expression, NoMemory>
    ensures { IfOk result (λ made. seen made ≡ negation (seen e)) }
{
    Ok(Expression::Not(boxed(alloc, e)?))
}

/// An expression behind `&`, if there is a left side.
pub fn and(
    alloc: Global,
    left: Option<Expression>,
    right: Expression,
) -> Result<Expression, NoMemory>
    ensures { IfOk result (λ made. seen made ≡ joined conjunction (seen_opt left) (seen right)) }
{
    match left {
        Some(left) => {
            let (left, right) = boxed_two(alloc, left, right)?;
            Ok(Expression::And(left, right))
        }
        None => Ok(right),
    }
}

/// An expression behind `^`, if there is a left side.
pub fn xor(
    alloc: Global,
    left: Option<Expression>,
    right: Expression,
) -> Result<Expression, NoMemory>
    ensures { IfOk result (λ made. seen made ≡ joined parity (seen_opt left) (seen right)) }
{
    match left {
        Some(left) => {
            let (left, right) = boxed_two(alloc, left, right)?;
            Ok(Expression::Xor(left, right))
        }
        None => Ok(right),
    }
}

/// An expression behind `|`, if there is a left side.
pub fn or(
    alloc: Global,
    left: Option<Expression>,
    right: Expression,
) -> Result<Expression, NoMemory>
    ensures { IfOk result (λ made. seen made ≡ joined disjunction (seen_opt left) (seen right)) }
{
    match left {
        Some(left) => {
            let (left, right) = boxed_two(alloc, left, right)?;
            Ok(Expression::Or(left, right))
        }
        None => Ok(right),
    }
}

/// A condition with its two branches.
pub fn choose(
    alloc: Global,
    condition: Expression,
    first: Expression,
    second: Expression,
) -> Result<Expression, NoMemory>
    ensures { IfOk result (λ made. seen made ≡ choice (seen condition) (seen first) (seen second)) }
{
    let (condition, first) = boxed_two(alloc, condition, first)?;
    let second = boxed(alloc, second)?;
    Ok(Expression::Choice(condition, first, second))
}

/// So many `~` before an operand.
pub fn negate(alloc: Global, nots: usize, e: Expression) -> Result<Expression, NoMemory>
    ensures { IfOk result (λ made. seen made ≡ negated nots (seen e)) }
{
    let mut made = e;
    for _not in 0..nots {
        made = not(alloc, made)?;
    }
    Ok(made)
}
