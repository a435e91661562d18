//! Expressions, read token by token.

ghost use Rattle.std.specs.Prelude.{◌≡◌, ◌∷◌, ℕ, List, Some, None, IfOk, OnOk};
ghost use Rattle.verilog_expression.specs.Grammar.{seen};
ghost use Rattle.verilog_expression.specs.Kept.{TakesOff, behind_branches, is_inside, seen_all, seen_if, seen_level, seen_opt, seen_progress, with_branches};
ghost use Rattle.verilog_expression.specs.Readings.{closed, divided, ended, first_taken, next_taken, nothing, open_, start, taken, up_to_or, with_operand, with_tilde};
ghost use Rattle.verilog_expression.specs.Readings.Around.{parentheses, condition};
ghost use Rattle.verilog_tokens.specs.Signs.{part_of};

use crate::operators::{choose, negate};
use crate::progress::{
    Innermost, Level, Opened, Progress, empty, has_parentheses, open_one, put, take_and, take_or,
    take_xor, to_or,
};
use crate::tree::Expression;
use std::alloc::Global;
use std::mem::replace;
use verilog_tokens::PartKind;
use vrt_model::{NoMemory, Text};

/// Takes an operand with its `~` before it.
fn take_operand(alloc: Global, progress: &mut Progress, e: Expression) -> Result<(), NoMemory>
    ensures { OnOk result (seen_progress progress.new ≡ with_operand (seen_level progress.old.inner) (seen_all progress.old.outer) (seen e)) }
{
    let made = negate(alloc, progress.inner.nots, e)?;
    progress.inner.nots = 0;
    put(&mut progress.operand, made);
    Ok(())
}

/// Takes `~`. More than can be counted do not fit into memory.
fn take_tilde(level: &mut Level) -> Result<(), NoMemory>
    ensures { OnOk result (seen_level level.new ≡ with_tilde (seen_level level.old)) }
{
    match level.nots.checked_add(1) {
        Some(nots) => {
            level.nots = nots;
            Ok(())
        }
        None => Err(NoMemory),
    }
}

/// Takes `(`: what waits is around what waits within.
fn take_opening(inner: &mut Level, outer: &mut Vec<Opened>) -> Result<(), NoMemory>
    ensures inner { seen_level inner.new ≡ nothing }
    ensures outer { OnOk result (seen_all outer.new ≡ parentheses (seen_level inner.old) ∷ seen_all outer.old) }
{
    let around = replace(inner, empty());
    open_one(outer, Opened::Parentheses(around))
}

/// Takes `?` behind an operand: it ends a condition.
fn take_question(alloc: Global, progress: &mut Progress, e: Expression) -> Result<(), NoMemory>
    requires { progress.old.operand ≡ None }
    ensures { OnOk result (seen_progress progress.new ≡ open_ nothing (condition (up_to_or (seen_level progress.old.inner) (seen e)) ∷ seen_all progress.old.outer)) }
{
    let whole = to_or(alloc, &mut progress.inner, e)?;
    progress.inner = empty();
    open_one(&mut progress.outer, Opened::Condition(whole))
}

/// Ends all branches that a whole expression is the second of, and takes off what is open around them.
fn end_branches(
    alloc: Global,
    outer: &mut Vec<Opened>,
    e: Expression,
) -> Result<(Expression, Innermost), NoMemory>
    ensures whole { IfOk result (λ two. seen two.0 ≡ with_branches (seen_all outer.old) (seen e)) }
    ensures open { IfOk result (λ two. TakesOff two.1 (seen_all outer.new) (behind_branches (seen_all outer.old))) }
{
    let mut whole = e;
    'branches: loop {
        match outer.pop() {
            Some(Opened::Branch(condition, first)) => {
                whole = choose(alloc, condition, first, whole)?;
            }
            Some(Opened::Parentheses(level)) => return Ok((whole, Innermost::Parentheses(level))),
            Some(Opened::Condition(condition)) => return Ok((
                whole,
                Innermost::Condition(condition),
            )),
            None => return Ok((whole, Innermost::Nothing)),
        }
    }
}

/// Takes `)` behind an operand: what it closes is an operand of what is around. False where no parentheses are open.
fn take_closing(alloc: Global, progress: &mut Progress, e: Expression) -> Result<bool, NoMemory>
    ensures { IfOk result (λ stands. seen_if stands progress.new ≡ closed (seen_all progress.old.outer) (up_to_or (seen_level progress.old.inner) (seen e))) }
{
    let whole = to_or(alloc, &mut progress.inner, e)?;
    let (joined, around) = end_branches(alloc, &mut progress.outer, whole)?;
    match around {
        Innermost::Parentheses(level) => {
            progress.inner = level;
            take_operand(alloc, progress, joined)?;
            Ok(true)
        }
        Innermost::Condition(_) => Ok(false),
        Innermost::Nothing => Ok(false),
    }
}

/// Takes `:` behind an operand: it ends a first branch. False where no condition is open.
fn take_colon(alloc: Global, progress: &mut Progress, e: Expression) -> Result<bool, NoMemory>
    requires { progress.old.operand ≡ None }
    ensures { IfOk result (λ stands. seen_if stands progress.new ≡ divided (seen_all progress.old.outer) (up_to_or (seen_level progress.old.inner) (seen e))) }
{
    let whole = to_or(alloc, &mut progress.inner, e)?;
    let (joined, around) = end_branches(alloc, &mut progress.outer, whole)?;
    match around {
        Innermost::Condition(condition) => {
            progress.inner = empty();
            open_one(&mut progress.outer, Opened::Branch(condition, joined))?;
            Ok(true)
        }
        Innermost::Parentheses(_) => Ok(false),
        Innermost::Nothing => Ok(false),
    }
}

/// Takes a token where an operand is expected. False where it cannot stand there.
fn take_first(
    alloc: Global,
    progress: &mut Progress,
    kind: PartKind,
    bytes: &[u8],
) -> Result<bool, NoMemory>
    requires { progress.old.operand ≡ None }
    ensures { IfOk result (λ stands. seen_if stands progress.new ≡ first_taken (seen_level progress.old.inner) (seen_all progress.old.outer) (part_of kind bytes.now)) }
{
    match kind {
        PartKind::Name => {
            let net = Text::from_bytes(alloc, bytes)?;
            take_operand(alloc, progress, Expression::Net(net))?;
            Ok(true)
        }
        PartKind::Bit(bit) => {
            take_operand(alloc, progress, Expression::Constant(bit))?;
            Ok(true)
        }
        PartKind::Tilde => {
            take_tilde(&mut progress.inner)?;
            Ok(true)
        }
        PartKind::Opening => {
            take_opening(&mut progress.inner, &mut progress.outer)?;
            Ok(true)
        }
        _ => Ok(false),
    }
}

/// Takes a token behind an operand. False where it cannot stand there.
fn take_next(
    alloc: Global,
    progress: &mut Progress,
    e: Expression,
    kind: PartKind,
) -> Result<bool, NoMemory>
    requires { progress.old.operand ≡ None }
    ensures { (bytes : List ℕ) → IfOk result (λ stands. seen_if stands progress.new ≡ next_taken (seen_level progress.old.inner) (seen_all progress.old.outer) (seen e) (part_of kind bytes)) }
{
    match kind {
        PartKind::Ampersand => {
            take_and(alloc, &mut progress.inner, e)?;
            Ok(true)
        }
        PartKind::Caret => {
            take_xor(alloc, &mut progress.inner, e)?;
            Ok(true)
        }
        PartKind::Bar => {
            take_or(alloc, &mut progress.inner, e)?;
            Ok(true)
        }
        PartKind::Question => {
            take_question(alloc, progress, e)?;
            Ok(true)
        }
        PartKind::Colon => take_colon(alloc, progress, e),
        PartKind::Closing => take_closing(alloc, progress, e),
        _ => Ok(false),
    }
}

/// No token is read: nothing is open, and an operand is expected.
pub fn begin(alloc: Global) -> Progress
    ensures { seen_progress result ≡ start }
{
    Progress {
        inner: empty(),
        outer: Vec::new(alloc),
        operand: None,
    }
}

/// Takes a token. False where it cannot stand there; then nothing more may be read.
pub fn take(
    alloc: Global,
    progress: &mut Progress,
    kind: PartKind,
    bytes: &[u8],
) -> Result<bool, NoMemory>
    ensures { IfOk result (λ stands. seen_if stands progress.new ≡ taken (seen_progress progress.old) (part_of kind bytes.now)) }
{
    match progress.operand.take() {
        None => take_first(alloc, progress, kind, bytes),
        Some(e) => take_next(alloc, progress, e, kind),
    }
}

/// Whether a `)` would close parentheses of the expression.
pub fn is_within(progress: &Progress) -> bool
    ensures { result ≡ is_inside (seen_progress progress.now) }
{
    progress.operand.is_some() && has_parentheses(progress.outer.as_slice())
}

/// The expression that ends here: behind an operand, with nothing open. None where it cannot end.
pub fn end(alloc: Global, progress: &mut Progress) -> Result<Option<Expression>, NoMemory>
    ensures { IfOk result (λ e. seen_opt e ≡ ended (seen_progress progress.old)) }
{
    let Some(e) = progress.operand.take() else {
        return Ok(None);
    };
    let whole = to_or(alloc, &mut progress.inner, e)?;
    let (joined, around) = end_branches(alloc, &mut progress.outer, whole)?;
    match around {
        Innermost::Nothing => Ok(Some(joined)),
        Innermost::Parentheses(_) => Ok(None),
        Innermost::Condition(_) => Ok(None),
    }
}
