//! Holds, variables, constraints and faults of small cells, worked out by hand, each with what is answered of it: one line a case,
//! with its name. Standard input gives netlists, models and rules (`row_script`), draws circuits (`drawing`), and says what is
//! asked of them (`texts`).
//!
//! A function is told by its bits, one for each valuation of the variables: the first variable changes last.
#![tactic(auto)]

mod board;
mod care;
mod checks;
mod drawing;
mod expressions;
mod faults;
mod groups;
mod held;
mod inputs;
mod obligations;
mod observed;
mod spans;
mod stop;
mod texts;
mod values;
mod variables;

use drawing::{draw, empty};
use row_script::{Page, Script, word_and_rest};
use std::io;
use std::io::Write;
use stop::Stop;
use vrt_model::Circuit;

/// Takes a line, and tells what it asks for.
fn answer(
    page: &mut Page,
    script: &mut Script,
    circuit: &mut Circuit,
    line: &str,
) -> Result<(), Stop> {
    let (word, rest) = word_and_rest(line);
    if draw(page.alloc(), circuit, word, rest)? {
        return Ok(());
    }
    let Some((asked, name)) = script.take(page, line) else {
        return Ok(());
    };
    page.word(name);
    page.word(": ");
    texts::tell(page, script, circuit, asked)?;
    page.word("\n");
    Ok(())
}

/// Tells why a row is not told, where it is not.
fn tell_stop(page: &mut Page, told: Result<(), Stop>) {
    if let Err(stop) = told {
        page.debug(&stop);
    }
}

fn main(rt: HostRuntime) -> io::Result<()> {
    let mut page = Page::new(rt.alloc());
    let mut script = Script::new(rt.alloc());
    let mut circuit = empty(rt.alloc());
    for line in rt.lines(rt.alloc()) {
        let told = answer(&mut page, &mut script, &mut circuit, line?.as_str());
        tell_stop(&mut page, told);
    }
    page.end();
    io::writer(&rt).write_all(page.written())
}
