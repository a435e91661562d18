//! What the lines of standard input ask of texts.
//!
//! | asked | what is told |
//! |---|---|
//! | `lines` | of the text that was begun last: how many lines it has, and its last line |
//! | `read` | what its reader answers |
//! | `fronts N` | how many of its fronts its reader answers, where no front has more than N cells, models or supplies |
//! | `names WHAT NAMES` | of a set of names (`name_sets`) |
//! | `verilog`, `verilog ASKED` | of the models, read as modules of Verilog: how many, or what is asked of them by one of the next lines (`modules`) |
//! | `part N` | how many parts the model of this number has |
//! | `rule WHAT` | of the rules (`rules`) |
//! | `check WHAT,..` | what these checks of the models answer (`checks`) |
//! | `unroll`, `signals` | what the first model is unrolled to, and how many signals that has |
//! | `model N` | the model of the cell of this number |
//! | `pair` | the pairing of the first cell with the first model |
//! | `circuit ROLE ..`, `sizes`, `structure` | of the first cell (`circuits`) |
//! | `order` | of all cells, under the rules (`orders`) |
//! | `generate N` | the texts of this size (`made`) |

use crate::{cells, lines, made, models, modules, name_sets, netlists, rules};
use row_script::{Page, Part, Script, number, word_and_rest};
use std::alloc::Global;

/// Takes a line, and tells what it asks for.
pub(crate) fn take(page: &mut Page, script: &mut Script, line: &str) {
    if let Some((asked, name)) = script.take(page, line) {
        page.word(name);
        page.word(": ");
        answer(page, script, asked);
        page.word("\n");
    }
}

/// Tells what is asked of the texts given so far.
fn answer(page: &mut Page, script: &Script, asked: &str) {
    let (word, rest) = word_and_rest(asked);
    match word {
        "lines" => lines::tell(page, script.text()),
        "names" => name_sets::tell(page, rest),
        "read" => read(page, script.part, script.text()),
        "fronts" => fronts(page, script, number(rest) as usize),
        "rule" => rules::tell_rule(page, script.rules.written(), rest),
        "generate" => made::tell(page, number(rest)),
        "verilog" => modules::tell(page, script.models.written(), rest),
        "part" | "check" | "unroll" | "signals" => {
            models::tell_of(page, script.models.written(), word, rest);
        }
        _ => cells::tell(page, script, word, rest),
    }
}

/// Tells what the reader of a text answers.
fn read(page: &mut Page, part: Part, text: &[u8]) {
    match part {
        Part::Netlist => netlists::tell(page, text),
        Part::Models => models::tell(page, text),
        Part::Rules => rules::tell(page, text),
    }
}

/// Whether a text is read and has no more cells, models or supplies than so many, or is refused for another cause than
/// want of memory.
fn is_answered(alloc: Global, part: Part, text: &[u8], most: usize) -> bool {
    match part {
        Part::Netlist => netlists::is_answered(alloc, text, most),
        Part::Models => models::is_answered(alloc, text, most),
        Part::Rules => rules::is_answered(alloc, text, most),
    }
}

/// Tells how many fronts of the text that was begun last are answered.
fn fronts(page: &mut Page, script: &Script, most: usize) {
    let text = script.text();
    let mut answered = 0usize;
    for count in 0..text.len() {
        if is_answered(page.alloc(), script.part, &text[..count], most) {
            answered = answered.saturating_add(1);
        }
    }
    page.count(answered, "");
}
