//! Whether tokens are an expression, how deep it is, and how many operators it has. No memory is taken.

ghost use Rattle.std.specs.Prelude.{◌≡◌, ◌+◌, ◌<◌, ◌^◌, ℕ, List, false, true, is_some, Some};
ghost use Rattle.rules_expression.specs.Formed.{form, form_behind, forms};
ghost use Rattle.rules_expression.specs.Pieces.{line_tokens, token_of};
ghost use Rattle.rules_expression.specs.Readings.{formula_of};
ghost use Rattle.rules_expression.specs.Tokens.{depth_behind, is_operator, nests_deeper, operator_count};
ghost use Rattle.rules_expression.specs.declared.tokens.Token.TheVariants.{Name};

use crate::tokens::{Token, Tokens, first_piece, piece_sign};

/// Whether an operand was just read, and how many parentheses are open.
#[derive(Clone, Copy)]
pub struct Form {
    /// Whether an operand was just read, so that an operator or a `)` may follow.
    pub has_operand: bool,
    /// How many parentheses are open.
    pub depth: usize,
}

/// Behind one token more where an operand is expected. None where the token cannot stand there.
fn first_behind(depth: usize, token: &Token) -> Option<Form>
    requires { depth + 1 < 2 ^ 64 }
    ensures { result ≡ form_behind false depth token.now }
{
    match token {
        Token::Name(_) => Some(Form {
            has_operand: true,
            depth,
        }),
        Token::Bang => Some(Form {
            has_operand: false,
            depth,
        }),
        Token::Opening => Some(Form {
            has_operand: false,
            depth: depth + 1,
        }),
        _ => None,
    }
}

/// Behind one token more behind an operand.
fn next_behind(depth: usize, token: &Token) -> Option<Form>
    ensures { result ≡ form_behind true depth token.now }
{
    match token {
        Token::Ampersand | Token::Caret | Token::Bar => Some(Form {
            has_operand: false,
            depth,
        }),
        Token::Closing => {
            if depth == 0 {
                None
            } else {
                Some(Form {
                    has_operand: true,
                    depth: depth - 1,
                })
            }
        }
        _ => None,
    }
}

fn behind(form: Form, token: &Token) -> Option<Form>
    requires { form.depth + 1 < 2 ^ 64 }
    ensures { result ≡ form_behind form.has_operand form.depth token.now }
{
    if form.has_operand {
        next_behind(form.depth, token)
    } else {
        first_behind(form.depth, token)
    }
}

/// Behind a name. None where it cannot stand there.
fn behind_name(form: Form) -> Option<Form>
    ensures { (name : List ℕ) → result ≡ form_behind form.has_operand form.depth (Name name) }
{
    if form.has_operand {
        return None;
    }
    Some(Form {
        has_operand: true,
        depth: form.depth,
    })
}

/// Behind the token of a piece. None where it cannot stand there.
fn behind_piece(form: Form, piece: &[u8]) -> Option<Form>
    requires { form.depth + 1 < 2 ^ 64 }
    ensures { result ≡ form_behind form.has_operand form.depth (token_of piece.now) }
{
    match piece_sign(piece) {
        Some(token) => behind(form, &token),
        None => behind_name(form),
    }
}

/// Whether each token of a line can stand where it does, and the last ends an expression.
fn has_form(line: &[u8]) -> bool
    ensures { result ≡ forms (Some (form false 0)) (line_tokens line.now) }
{
    let mut form = Form {
        has_operand: false,
        depth: 0,
    };
    let mut rest = line;
    'tokens: while let Some((piece, left)) = first_piece(rest) {
        match behind_piece(form, piece) {
            Some(next) => form = next,
            None => return false,
        }
        rest = left;
    }
    form.has_operand && form.depth == 0
}

/// Whether tokens are an expression.
#[tactic(auto, using(crate::proofs::FormLaws::has_formula))]
pub fn is_form(tokens: &Tokens) -> bool
    ensures { result ≡ is_some (formula_of tokens.now) }
{
    has_form(tokens.as_bytes())
}

/// How many parentheses are open behind a token.
fn depth_after(depth: usize, token: &Token) -> usize
    requires { depth + 1 < 2 ^ 64 }
    ensures { result ≡ depth_behind depth token.now }
{
    match token {
        Token::Opening => depth + 1,
        Token::Closing => depth.saturating_sub(1),
        _ => depth,
    }
}

/// How many parentheses are open behind the token of a piece.
fn depth_after_piece(depth: usize, piece: &[u8]) -> usize
    requires { depth + 1 < 2 ^ 64 }
    ensures { result ≡ depth_behind depth (token_of piece.now) }
{
    match piece_sign(piece) {
        Some(token) => depth_after(depth, &token),
        None => depth,
    }
}

/// Whether more than 64 parentheses are open at once.
pub fn is_too_deep(tokens: &Tokens) -> bool
    ensures { result ≡ nests_deeper 64 0 tokens.now }
{
    let mut depth = 0;
    let mut rest = tokens.as_bytes();
    'tokens: while let Some((piece, left)) = first_piece(rest) {
        depth = depth_after_piece(depth, piece);
        if depth > 64 {
            return true;
        }
        rest = left;
    }
    false
}

fn is_operator_token(token: &Token) -> bool
    ensures { result ≡ is_operator token.now }
{
    match token {
        Token::Bang | Token::Ampersand | Token::Caret | Token::Bar => true,
        _ => false,
    }
}

/// Whether the token of a piece is an operator.
fn is_operator_piece(piece: &[u8]) -> bool
    ensures { result ≡ is_operator (token_of piece.now) }
{
    match piece_sign(piece) {
        Some(token) => is_operator_token(&token),
        None => false,
    }
}

/// How many operators there are, `!` among them.
pub fn count_operators(tokens: &Tokens) -> usize
    ensures { result ≡ operator_count tokens.now }
{
    let mut count = 0usize;
    let mut rest = tokens.as_bytes();
    'tokens: while let Some((piece, left)) = first_piece(rest) {
        if is_operator_piece(piece) {
            count += 1;
        }
        rest = left;
    }
    count
}
