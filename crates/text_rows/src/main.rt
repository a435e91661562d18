//! Texts that are worked out by hand, each with what the readers answer of it, the checks of models, the unrolling of models, the
//! order of cells, the pairing and the flat circuits: one line a case, with its name. Standard input gives netlists, models
//! and rules, and says what is asked of them (`row_script`, `desk`).
//!
//! | module | of what |
//! |---|---|
//! | `lines`, `name_sets` | the lines and words of a text, sets of names |
//! | `netlists`, `models`, `rules` | what the three readers answer of a text, and of each front of it |
//! | `modules` | what the reader of Verilog answers of a text |
//! | `checks` | each fault of models, which stand in one another up to 32 deep |
//! | `unrollings` | models with their sub-models unrolled, and the limits of these |
//! | `cells` | what is asked of cells |
//! | `pairings` | the model of a cell, and the signals of its ports |
//! | `circuits` | the flat circuit of a cell, its sizes, and what stands in its way |
//! | `orders` | the order of cells in cells, or the first fault of a netlist and its rules |
//! | `made` | the texts of a size |
#![tactic(auto)]

mod cells;
mod checks;
mod circuits;
mod desk;
mod lines;
mod made;
mod models;
mod modules;
mod name_sets;
mod netlists;
mod orders;
mod pairings;
mod rules;
mod unrollings;

use row_script::{Page, Script};
use std::io;
use std::io::Write;

/// The most bytes of a text that a reader takes.
const MOST_BYTES: usize = 16_777_216;

fn main(rt: HostRuntime) -> io::Result<()> {
    let mut page = Page::new(rt.alloc());
    let mut script = Script::new(rt.alloc());
    for line in rt.lines(rt.alloc()) {
        desk::take(&mut page, &mut script, line?.as_str());
    }
    page.end();
    io::writer(&rt).write_all(page.written())
}
