//! What the words of the command line ask for.

use crate::row::words_of;
use command_line::{Asked, FileWords, Request, WordsFault, read_words};
use row_script::Page;

/// Tells a kind of requests and the cell.
fn tell_cell(page: &mut Page, kind: &str, cell: Option<&str>) {
    page.word(kind);
    page.word(cell.unwrap_or("none"));
    page.word(", ");
}

/// Tells the three files.
fn tell_files(page: &mut Page, files: &FileWords<'_>) {
    page.word("files ");
    page.word(files.spice);
    page.word(" ");
    page.word(files.blif);
    page.word(" ");
    page.word(files.rules);
}

/// Tells the budget.
fn tell_budget(page: &mut Page, budget: Option<u32>) {
    match budget {
        Some(nodes) => {
            page.word("budget");
            page.behind_blank(nodes);
        }
        None => page.word("no budget"),
    }
}

/// Tells the phase and the valuation.
fn tell_phase(page: &mut Page, phase: &str, at: Option<&str>) {
    page.word("phase ");
    page.word(phase);
    page.word(", at ");
    page.word(at.unwrap_or("none"));
    page.word(", ");
}

/// Tells the phase and the inputs that rise.
fn tell_rising(page: &mut Page, phase: &str, rise: &str) {
    page.word("phase ");
    page.word(phase);
    page.word(", rise ");
    page.word(rise);
    page.word(", ");
}

/// Tells the values of a request.
fn tell_request(page: &mut Page, request: &Request<'_>) {
    match request {
        Request::Check {
            cell,
            budget,
            files,
        } => {
            tell_cell(page, "check, cell ", *cell);
            tell_budget(page, *budget);
            page.word(", ");
            tell_files(page, files);
        }
        Request::Replay {
            cell,
            phase,
            at,
            files,
        } => {
            tell_cell(page, "replay, cell ", Some(*cell));
            tell_phase(page, phase, *at);
            tell_files(page, files);
        }
        Request::Classes { cell, files } => {
            tell_cell(page, "classes, cell ", *cell);
            tell_files(page, files);
        }
        Request::Generate { size, budget } => {
            page.word("gen, size");
            page.behind_blank(*size);
            page.word(", ");
            tell_budget(page, *budget);
        }
        Request::Arrive {
            cell,
            phase,
            rise,
            budget,
            files,
        } => {
            tell_cell(page, "arrive, cell ", Some(*cell));
            tell_rising(page, phase, rise);
            tell_budget(page, *budget);
            page.word(", ");
            tell_files(page, files);
        }
        Request::Blif {
            cell,
            budget,
            files,
        } => {
            tell_cell(page, "blif, cell ", Some(*cell));
            tell_budget(page, *budget);
            page.word(", ");
            tell_files(page, files);
        }
    }
}

/// Tells what words ask for.
fn tell_words(page: &mut Page, words: &[String]) {
    match read_words(page.alloc(), words) {
        Ok(Asked::Help) => page.word("help"),
        Ok(Asked::Version) => page.word("version"),
        Ok(Asked::Run(request)) => tell_request(page, &request),
        Err(WordsFault::Usage) => page.word("usage"),
        Err(WordsFault::NoMemory) => page.word("memory"),
    }
}

/// Tells a line of words, and what it asks for.
pub(crate) fn tell(page: &mut Page, line: &str) {
    let words = words_of(page, line);
    page.word("words '");
    page.word(line);
    page.word("': ");
    tell_words(page, words.as_slice());
    page.word("\n");
}
