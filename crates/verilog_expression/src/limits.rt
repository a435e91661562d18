//! The limits of an expression, at the token that passes one.

ghost use Rattle.std.specs.Prelude.{◌≡◌, ℕ, List};
ghost use Rattle.verilog_expression.specs.Limits.{counts_behind, deeper, more_operators};
ghost use Rattle.verilog_tokens.specs.Signs.{part_of};

use verilog_tokens::PartKind;

/// What is counted of an expression, up to the token that was just read.
#[derive(Clone, Copy)]
pub struct Counts {
    /// How many operators it has. `?:` is one, at its `?`.
    pub operators: u32,
    /// How many of its parentheses are open.
    pub depth: u32,
}

/// With one operator more. None where there are 1,000.
fn with_operator(counts: Counts) -> Option<Counts>
    ensures { result ≡ more_operators counts }
{
    if counts.operators < 1000 {
        Some(Counts {
            operators: counts.operators + 1,
            depth: counts.depth,
        })
    } else {
        None
    }
}

/// With one `(` more that is open. None where 64 are.
fn with_opening(counts: Counts) -> Option<Counts>
    ensures { result ≡ deeper counts }
{
    if counts.depth < 64 {
        Some(Counts {
            operators: counts.operators,
            depth: counts.depth + 1,
        })
    } else {
        None
    }
}

/// What is counted behind a token. None exactly where it passes a limit: as the 1,001st operator, or as a `(` within 64
/// that are open.
pub fn count(counts: Counts, kind: PartKind) -> Option<Counts>
    ensures { (bytes : List ℕ) → result ≡ counts_behind counts (part_of kind bytes) }
{
    match kind {
        PartKind::Opening => with_opening(counts),
        PartKind::Closing => Some(Counts {
            operators: counts.operators,
            depth: counts.depth.saturating_sub(1),
        }),
        PartKind::Tilde => with_operator(counts),
        PartKind::Ampersand => with_operator(counts),
        PartKind::Caret => with_operator(counts),
        PartKind::Bar => with_operator(counts),
        PartKind::Question => with_operator(counts),
        PartKind::Name => Some(counts),
        PartKind::Bit(_) => Some(counts),
        PartKind::Colon => Some(counts),
    }
}
