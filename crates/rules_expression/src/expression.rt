//! Expressions by their grammar.

ghost use Rattle.std.specs.Prelude.{◌≡◌, ◌∷◌, Some, None, IfOk, OnOk};
ghost use Rattle.rules_expression.specs.Grammar.{Reads, seen};
ghost use Rattle.rules_expression.specs.Grammar.Formula.{negation, conjunction, parity, disjunction};
ghost use Rattle.rules_expression.specs.Pieces.{line_tokens, token_of};
ghost use Rattle.rules_expression.specs.Readings.{behind_and, behind_or, behind_xor, closed, ended, first_taken, formula_of, joined, negated, next_taken, nothing, read_on, start, taken, up_to_or, up_to_xor, with_bang, with_operand};
ghost use Rattle.rules_expression.specs.Kept.{Leaves, seen_all, seen_if, seen_level, seen_opt, seen_progress};

use crate::tokens::{Token, Tokens, first_piece, piece_token};
use std::alloc::Global;
use std::mem::replace;
use vrt_model::{Expr, NoMemory, Text};

/// What waits for the next operand: the left sides of `|`, `^` and `&`, and so many `!`.
pub struct Level {
    /// The left side of the `|` whose right side is read.
    pub ors: Option<Expr>,
    /// The left side of the `^` whose right side is read.
    pub xors: Option<Expr>,
    /// The left side of the `&` whose right side is read.
    pub ands: Option<Expr>,
    /// How many `!` stand before the next operand.
    pub nots: usize,
}

/// By hand, so that letting go of one is a call.
impl Drop for Level {
    fn drop(self) {
        let Level {
            ors: _ors,
            xors: _xors,
            ands: _ands,
            nots: _nots,
        } = self;
    }
}

/// The innermost parentheses that are open, those around them, and the operand that was just read.
pub struct Progress {
    /// What waits within the innermost parentheses that are open.
    pub inner: Level,
    /// What waits around them, the outermost first.
    pub outer: Vec<Level>,
    /// The operand that was just read, none where one is expected.
    pub operand: Option<Expr>,
}

/// By hand, so that letting go of one is a call.
impl Drop for Progress {
    fn drop(self) {
        let Progress {
            inner: _inner,
            outer: _outer,
            operand: _operand,
        } = self;
    }
}

/// A box of an expression.
fn boxed(alloc: Global, e: Expr) -> Result<Box<Expr>, NoMemory>
    ensures { IfOk result (λ b. b.value ≡ e) }
{
    match Box::new(alloc, e) {
        Ok(b) => Ok(b),
        Err(_) => Err(NoMemory),
    }
}

/// The two sides of an operator, each in a box.
fn boxed_two(alloc: Global, left: Expr, right: Expr) -> Result<(Box<Expr>, Box<Expr>), NoMemory>
    ensures { IfOk result (λ two. (two.0.value ≡ left) × (two.1.value ≡ right)) }
{
    let left = boxed(alloc, left)?;
    let right = boxed(alloc, right)?;
    Ok((left, right))
}

/// An expression behind `!`.
fn not(alloc: Global, e: Expr) -> Result<Expr, NoMemory>
    ensures { IfOk result (λ made. seen made ≡ negation (seen e)) }
{
    Ok(Expr::Not(boxed(alloc, e)?))
}

/// An expression behind `&`, if there is a left side.
fn and(alloc: Global, left: Option<Expr>, right: Expr) -> Result<Expr, NoMemory>
    ensures { IfOk result (λ made. seen made ≡ joined conjunction (seen_opt left) (seen right)) }
{
    match left {
        Some(left) => {
            let (left, right) = boxed_two(alloc, left, right)?;
            Ok(Expr::And(left, right))
        }
        None => Ok(right),
    }
}

/// An expression behind `^`, if there is a left side.
fn xor(alloc: Global, left: Option<Expr>, right: Expr) -> Result<Expr, NoMemory>
    ensures { IfOk result (λ made. seen made ≡ joined parity (seen_opt left) (seen right)) }
{
    match left {
        Some(left) => {
            let (left, right) = boxed_two(alloc, left, right)?;
            Ok(Expr::Xor(left, right))
        }
        None => Ok(right),
    }
}

/// An expression behind `|`, if there is a left side.
fn or(alloc: Global, left: Option<Expr>, right: Expr) -> Result<Expr, NoMemory>
    ensures { IfOk result (λ made. seen made ≡ joined disjunction (seen_opt left) (seen right)) }
{
    match left {
        Some(left) => {
            let (left, right) = boxed_two(alloc, left, right)?;
            Ok(Expr::Or(left, right))
        }
        None => Ok(right),
    }
}

/// So many `!` before an operand.
fn negate(alloc: Global, nots: usize, e: Expr) -> Result<Expr, NoMemory>
    ensures { IfOk result (λ made. seen made ≡ negated nots (seen e)) }
{
    let mut made = e;
    for _not in 0..nots {
        made = not(alloc, made)?;
    }
    Ok(made)
}

/// The expression that an operand ends, up to its `^`. What it takes in waits no more.
fn to_xor(alloc: Global, level: &mut Level, e: Expr) -> Result<Expr, NoMemory>
    ensures made { IfOk result (λ made. seen made ≡ up_to_xor (seen_level level.old) (seen e)) }
    ensures rest { level.new.ors ≡ level.old.ors }
{
    let right = and(alloc, level.ands.take(), e)?;
    xor(alloc, level.xors.take(), right)
}

/// The expression that an operand ends, up to its `|`. What it takes in waits no more.
fn to_or(alloc: Global, level: &mut Level, e: Expr) -> Result<Expr, NoMemory>
    ensures { IfOk result (λ made. seen made ≡ up_to_or (seen_level level.old) (seen e)) }
{
    let right = to_xor(alloc, level, e)?;
    or(alloc, level.ors.take(), right)
}

/// No left side and no `!`.
fn empty() -> Level
    ensures { seen_level result ≡ nothing }
{
    Level {
        ors: None,
        xors: None,
        ands: None,
        nots: 0,
    }
}

/// Puts an expression into a place.
fn put(place: &mut Option<Expr>, e: Expr)
    ensures { place.new ≡ Some e }
{
    *place = Some(e);
}

/// Takes an operand with its `!` before it.
fn take_operand(alloc: Global, progress: &mut Progress, e: Expr) -> Result<(), NoMemory>
    ensures { OnOk result (seen_progress progress.new ≡ with_operand (seen_level progress.old.inner) (seen_all progress.old.outer) (seen e)) }
{
    let made = negate(alloc, progress.inner.nots, e)?;
    progress.inner.nots = 0;
    put(&mut progress.operand, made);
    Ok(())
}

/// Takes `!`. More than can be counted do not fit into memory.
fn take_not(level: &mut Level) -> Result<(), NoMemory>
    ensures { OnOk result (seen_level level.new ≡ with_bang (seen_level level.old)) }
{
    match level.nots.checked_add(1) {
        Some(nots) => {
            level.nots = nots;
            Ok(())
        }
        None => Err(NoMemory),
    }
}

/// A level more around the innermost.
fn add_level(outer: &mut Vec<Level>, level: Level) -> Result<(), NoMemory>
    ensures { OnOk result (seen_all outer.new ≡ seen_level level ∷ seen_all outer.old) }
{
    match outer.push(level) {
        Ok(()) => Ok(()),
        Err(_) => Err(NoMemory),
    }
}

/// Takes `(`: the innermost level is one around a new one.
fn take_opening(inner: &mut Level, outer: &mut Vec<Level>) -> Result<(), NoMemory>
    ensures inner { seen_level inner.new ≡ nothing }
    ensures outer { OnOk result (seen_all outer.new ≡ seen_level inner.old ∷ seen_all outer.old) }
{
    let around = replace(inner, empty());
    add_level(outer, around)
}

/// Goes on in the level around the innermost, if there is one.
fn leave_level(inner: &mut Level, outer: &mut Vec<Level>) -> bool
    ensures { Leaves result (seen_all outer.old) (seen_level inner.new) (seen_all outer.new) }
{
    match outer.pop() {
        Some(level) => {
            *inner = level;
            true
        }
        None => false,
    }
}

/// Takes a token where an operand is expected. False where it cannot stand there.
fn take_first(alloc: Global, progress: &mut Progress, token: &Token) -> Result<bool, NoMemory>
    requires { progress.old.operand ≡ None }
    ensures { IfOk result (λ stands. seen_if stands progress.new ≡ first_taken (seen_level progress.old.inner) (seen_all progress.old.outer) token.now) }
{
    match token {
        Token::Name(name) => {
            let port = Text::from_bytes(alloc, name.as_bytes())?;
            take_operand(alloc, progress, Expr::Port(port))?;
            Ok(true)
        }
        Token::Bang => {
            take_not(&mut progress.inner)?;
            Ok(true)
        }
        Token::Opening => {
            take_opening(&mut progress.inner, &mut progress.outer)?;
            Ok(true)
        }
        _ => Ok(false),
    }
}

/// Takes `&` behind an operand.
fn take_and(alloc: Global, level: &mut Level, e: Expr) -> Result<(), NoMemory>
    ensures { OnOk result (seen_level level.new ≡ behind_and (seen_level level.old) (seen e)) }
{
    let left = and(alloc, level.ands.take(), e)?;
    put(&mut level.ands, left);
    level.nots = 0;
    Ok(())
}

/// Takes `^` behind an operand.
fn take_xor(alloc: Global, level: &mut Level, e: Expr) -> Result<(), NoMemory>
    ensures { OnOk result (seen_level level.new ≡ behind_xor (seen_level level.old) (seen e)) }
{
    let left = to_xor(alloc, level, e)?;
    put(&mut level.xors, left);
    level.ands = None;
    level.nots = 0;
    Ok(())
}

/// Takes `|` behind an operand.
fn take_or(alloc: Global, level: &mut Level, e: Expr) -> Result<(), NoMemory>
    ensures { OnOk result (seen_level level.new ≡ behind_or (seen_level level.old) (seen e)) }
{
    let left = to_or(alloc, level, e)?;
    *level = empty();
    put(&mut level.ors, left);
    Ok(())
}

/// Takes `)` behind an operand: what it closes is an operand of the level around it. False where no parentheses are open.
fn take_closing(alloc: Global, progress: &mut Progress, e: Expr) -> Result<bool, NoMemory>
    ensures { IfOk result (λ stands. seen_if stands progress.new ≡ closed (seen_all progress.old.outer) (up_to_or (seen_level progress.old.inner) (seen e))) }
{
    let whole = to_or(alloc, &mut progress.inner, e)?;
    if !leave_level(&mut progress.inner, &mut progress.outer) {
        return Ok(false);
    }
    take_operand(alloc, progress, whole)?;
    Ok(true)
}

/// Takes a token behind an operand. False where it cannot stand there.
fn take_next(
    alloc: Global,
    progress: &mut Progress,
    e: Expr,
    token: &Token,
) -> Result<bool, NoMemory>
    requires { progress.old.operand ≡ None }
    ensures { IfOk result (λ stands. seen_if stands progress.new ≡ next_taken (seen_level progress.old.inner) (seen_all progress.old.outer) (seen e) token.now) }
{
    match token {
        Token::Ampersand => {
            take_and(alloc, &mut progress.inner, e)?;
            Ok(true)
        }
        Token::Caret => {
            take_xor(alloc, &mut progress.inner, e)?;
            Ok(true)
        }
        Token::Bar => {
            take_or(alloc, &mut progress.inner, e)?;
            Ok(true)
        }
        Token::Closing => take_closing(alloc, progress, e),
        _ => Ok(false),
    }
}

/// Takes a token. False where it cannot stand there.
fn take(alloc: Global, progress: &mut Progress, token: &Token) -> Result<bool, NoMemory>
    ensures { IfOk result (λ stands. seen_if stands progress.new ≡ taken (seen_progress progress.old) token.now) }
{
    match progress.operand.take() {
        None => take_first(alloc, progress, token),
        Some(e) => take_next(alloc, progress, e, token),
    }
}

/// The expression that ends here: outside parentheses, behind an operand.
fn end(alloc: Global, progress: &mut Progress) -> Result<Option<Expr>, NoMemory>
    ensures { IfOk result (λ e. seen_opt e ≡ ended (seen_progress progress.old)) }
{
    if !progress.outer.is_empty() {
        return Ok(None);
    }
    match progress.operand.take() {
        Some(e) => {
            let whole = to_or(alloc, &mut progress.inner, e)?;
            Ok(Some(whole))
        }
        None => Ok(None),
    }
}

/// No parentheses are open, and an operand is expected.
fn begin(alloc: Global) -> Progress
    ensures { seen_progress result ≡ start }
{
    Progress {
        inner: empty(),
        outer: Vec::new(alloc),
        operand: None,
    }
}

/// Takes the token of a piece. False where it cannot stand there.
fn take_piece(alloc: Global, progress: &mut Progress, piece: &[u8]) -> Result<bool, NoMemory>
    ensures { IfOk result (λ stands. seen_if stands progress.new ≡ taken (seen_progress progress.old) (token_of piece.now)) }
{
    let token = piece_token(alloc, piece)?;
    let stands = take(alloc, progress, &token)?;
    Ok(stands)
}

/// The expression that the tokens of a line spell behind those taken before, if they spell one.
fn read_behind(
    alloc: Global,
    progress: &mut Progress,
    line: &[u8],
) -> Result<Option<Expr>, NoMemory>
    ensures { IfOk result (λ e. seen_opt e ≡ read_on (Some (seen_progress progress.old)) (line_tokens line.now)) }
{
    let mut rest = line;
    'tokens: while let Some((piece, left)) = first_piece(rest) {
        if !take_piece(alloc, progress, piece)? {
            return Ok(None);
        }
        rest = left;
    }
    end(alloc, progress)
}

/// The expression that tokens spell, none exactly where they spell none. `!` binds closest, then `&`, then `^`, then
/// `|`; each of the last three groups from the left. It takes time and memory in proportion to the tokens.
pub fn read_expression(alloc: Global, tokens: &Tokens) -> Result<Option<Expr>, NoMemory>
    ensures formula { IfOk result (λ e. seen_opt e ≡ formula_of tokens.now) }
    ensures grammar { IfOk result (Reads tokens.now) }
{
    let mut progress = begin(alloc);
    read_behind(alloc, &mut progress, tokens.as_bytes())
}
