//! What the tokens so far tell of the next.

ghost use Rattle.std.specs.Prelude.{◌≡◌, ℕ, List, OnOk};
ghost use Rattle.verilog_source.specs.Known.{counted, counts_of_sign, none_gathered, nothing_known, with_one};
ghost use Rattle.verilog_source.specs.Kept.{gathered, seen_known};
ghost use Rattle.verilog_expression.specs.Limits.{uncounted};
ghost use Rattle.verilog_source.specs.Positions.{place};
ghost use Rattle.verilog_source.specs.declared.position.Work.{Work};
ghost use Rattle.verilog_tokens.specs.Signs.{sign_of};

use crate::position::{Assign, Gate, Position, Work};
use crate::steps::no_work;
use names::Names;
use std::alloc::Global;
use verilog_expression::{Counts, count};
use verilog_tokens::Kind;
use vrt_model::NoMemory;

/// Names, each once, and those of them that came again.
pub struct Gathering {
    /// Each name, where it came first.
    pub once: Names,
    /// Those that came again.
    pub again: Names,
}

/// By hand, so that letting go of one is a call.
impl Drop for Gathering {
    fn drop(self) {
        let Gathering {
            once: _once,
            again: _again,
        } = self;
    }
}

/// What the tokens so far tell: where the text stands, what is read of the statement, and what is to be known of the
/// modules.
pub struct Known {
    /// Where the text stands in the grammar.
    pub position: Position,
    /// What is read of the statement.
    pub work: Work,
    /// What is counted of the expression that is open.
    pub counts: Counts,
    /// The names of all modules.
    pub modules: Names,
    /// The line of the last module.
    pub line: u32,
    /// Its listed ports.
    pub ports: Gathering,
    /// Its names with directions.
    pub directions: Gathering,
}

/// By hand, so that letting go of one is a call.
impl Drop for Known {
    fn drop(self) {
        let Known {
            position: _position,
            work: _work,
            counts: _counts,
            modules: _modules,
            line: _line,
            ports: _ports,
            directions: _directions,
        } = self;
    }
}

/// No names.
pub fn no_names(alloc: Global) -> Gathering
    ensures { gathered result ≡ none_gathered }
{
    Gathering {
        once: Names::new(alloc),
        again: Names::new(alloc),
    }
}

/// Adds a name.
pub fn gather(names: &mut Gathering, name: &[u8]) -> Result<(), NoMemory>
    ensures { OnOk result (gathered names.new ≡ with_one (gathered names.old) name.now) }
{
    if names.once.contains(name) {
        names.again.number(name)?;
        return Ok(());
    }
    names.once.number(name)?;
    Ok(())
}

/// Nothing is known at first.
pub fn first_known(alloc: Global) -> Known
    ensures { seen_known result ≡ nothing_known }
{
    Known {
        position: Position::Outside,
        work: no_work(alloc),
        counts: Counts {
            operators: 0,
            depth: 0,
        },
        modules: Names::new(alloc),
        line: 0,
        ports: no_names(alloc),
        directions: no_names(alloc),
    }
}

/// What is counted where a token is a part of no expression.
fn uncounted_behind() -> Counts
    ensures { result ≡ uncounted }
{
    Counts {
        operators: 0,
        depth: 0,
    }
}

/// What is counted behind a token of an expression.
fn count_kind(counts: Counts, kind: Kind) -> Option<Counts>
    ensures { (bytes : List ℕ) → result ≡ counts_of_sign counts (sign_of kind bytes) }
{
    match kind {
        Kind::Part(part) => count(counts, part),
        _ => Some(uncounted_behind()),
    }
}

/// What is counted of an expression behind a token. None where it passes a limit.
pub fn count_token(position: Position, counts: Counts, kind: Kind) -> Option<Counts>
    ensures { (w : Work) (bytes : List ℕ) → result ≡ counted (place position w) counts (sign_of kind bytes) }
{
    match position {
        Position::Assign(Assign::Open(_)) => count_kind(counts, kind),
        Position::Gate(Gate::TerminalOpen(_, _, _)) => count_kind(counts, kind),
        Position::Gate(Gate::TerminalWanted(_, _)) => count_kind(uncounted_behind(), kind),
        _ => Some(uncounted_behind()),
    }
}
