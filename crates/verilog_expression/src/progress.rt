//! An expression of which a part is read.

ghost use Rattle.std.specs.Prelude.{◌≡◌, ◌∷◌, Some, IfOk, OnOk};
ghost use Rattle.verilog_expression.specs.Grammar.{seen};
ghost use Rattle.verilog_expression.specs.Kept.{closes, seen_all, seen_level, seen_list, seen_opened};
ghost use Rattle.verilog_expression.specs.Readings.{behind_and, behind_or, behind_xor, nothing, up_to_or, up_to_xor};

use crate::operators::{and, or, xor};
use crate::tree::Expression;
use std::alloc::Global;
use vrt_model::NoMemory;

/// What waits for the next operand: the left sides of `|`, `^` and `&`, and so many `~`.
pub struct Level {
    /// The left side of the `|` whose right side is read.
    pub ors: Option<Expression>,
    /// The left side of the `^` whose right side is read.
    pub xors: Option<Expression>,
    /// The left side of the `&` whose right side is read.
    pub ands: Option<Expression>,
    /// How many `~` stand before the next operand.
    pub nots: usize,
}

/// By hand, so that letting go of one is a call.
impl Drop for Level {
    fn drop(self) {
        let Level {
            ors: _ors,
            xors: _xors,
            ands: _ands,
            nots: _nots,
        } = self;
    }
}

/// What is open around.
#[derive(Drop)]
pub enum Opened {
    /// Parentheses, with what waits outside.
    Parentheses(Level),
    /// A condition, behind which `?` stands.
    Condition(Expression),
    /// A condition with its first branch, behind which `:` stands.
    Branch(Expression, Expression),
}

/// What is innermost where no branch is.
#[derive(Drop)]
pub enum Innermost {
    /// Nothing is open.
    Nothing,
    /// Parentheses, with what waits outside.
    Parentheses(Level),
    /// A condition, behind which `?` stands.
    Condition(Expression),
}

/// An expression that is read token by token.
pub struct Progress {
    /// What waits within the innermost that is open.
    pub inner: Level,
    /// What is open, the outermost first.
    pub outer: Vec<Opened>,
    /// The operand that was just read, none where one is expected.
    pub operand: Option<Expression>,
}

/// By hand, so that letting go of one is a call.
impl Drop for Progress {
    fn drop(self) {
        let Progress {
            inner: _inner,
            outer: _outer,
            operand: _operand,
        } = self;
    }
}

/// No left side and no `~`.
pub fn empty() -> Level
    ensures { seen_level result ≡ nothing }
{
    Level {
        ors: None,
        xors: None,
        ands: None,
        nots: 0,
    }
}

/// Puts an expression into a place.
pub fn put(place: &mut Option<Expression>, e: Expression)
    ensures { place.new ≡ Some e }
{
    *place = Some(e);
}

/// The expression that an operand ends, up to its `^`. What it takes in waits no more.
fn to_xor(alloc: Global, level: &mut Level, e: Expression) -> Result<Expression, NoMemory>
    ensures made { IfOk result (λ made. seen made ≡ up_to_xor (seen_level level.old) (seen e)) }
    ensures rest { level.new.ors ≡ level.old.ors }
{
    let right = and(alloc, level.ands.take(), e)?;
    xor(alloc, level.xors.take(), right)
}

/// The expression that an operand ends, up to its `|`. What it takes in waits no more.
pub fn to_or(alloc: Global, level: &mut Level, e: Expression) -> Result<Expression, NoMemory>
    ensures { IfOk result (λ made. seen made ≡ up_to_or (seen_level level.old) (seen e)) }
{
    let right = to_xor(alloc, level, e)?;
    or(alloc, level.ors.take(), right)
}

/// Takes `&` behind an operand.
pub fn take_and(alloc: Global, level: &mut Level, e: Expression) -> Result<(), NoMemory>
    ensures { OnOk result (seen_level level.new ≡ behind_and (seen_level level.old) (seen e)) }
{
    let left = and(alloc, level.ands.take(), e)?;
    put(&mut level.ands, left);
    level.nots = 0;
    Ok(())
}

/// Takes `^` behind an operand.
pub fn take_xor(alloc: Global, level: &mut Level, e: Expression) -> Result<(), NoMemory>
    ensures { OnOk result (seen_level level.new ≡ behind_xor (seen_level level.old) (seen e)) }
{
    let left = to_xor(alloc, level, e)?;
    put(&mut level.xors, left);
    level.ands = None;
    level.nots = 0;
    Ok(())
}

/// Takes `|` behind an operand.
pub fn take_or(alloc: Global, level: &mut Level, e: Expression) -> Result<(), NoMemory>
    ensures { OnOk result (seen_level level.new ≡ behind_or (seen_level level.old) (seen e)) }
{
    let left = to_or(alloc, level, e)?;
    *level = empty();
    put(&mut level.ors, left);
    Ok(())
}

/// One thing more is open, the innermost.
pub fn open_one(outer: &mut Vec<Opened>, opened: Opened) -> Result<(), NoMemory>
    ensures { OnOk result (seen_all outer.new ≡ seen_opened opened ∷ seen_all outer.old) }
{
    match outer.push(opened) {
        Ok(()) => Ok(()),
        Err(_) => Err(NoMemory),
    }
}

/// Whether the innermost that is open but for branches are parentheses.
pub fn has_parentheses(outer: &[Opened]) -> bool
    ensures { result ≡ closes (seen_list outer.now) }
{
    let mut rest = outer;
    'opened: while let Some((last, before)) = rest.split_last() {
        match last {
            Opened::Parentheses(_) => return true,
            Opened::Condition(_) => return false,
            Opened::Branch(_, _) => rest = before,
        }
    }
    false
}
