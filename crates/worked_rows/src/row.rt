//! A run over three files in memory, and what it answers and writes.

use row_script::Page;
use verity_run::{Status, run};
use vrt_io::{MemFiles, MemSink, NoMemory, SureFiles, SureSink};

/// What a run is given.
#[derive(Clone, Copy)]
pub struct Row<'a> {
    /// The words behind the name of the program, with a space between two.
    pub words: &'a str,
    /// The netlist, in the file `c.sp`.
    pub netlist: &'a [u8],
    /// The models, in the file `m.blif`.
    pub models: &'a [u8],
    /// The rules, in the file `r.txt`.
    pub rules: &'a [u8],
}

/// Which calls of a run fail.
#[derive(Clone, Copy)]
pub struct Failures {
    /// The load that fails, counted from 1; 0 for none.
    pub load: u32,
    /// The put that fails, counted from 1; 0 for none.
    pub put: u32,
    /// How many bytes that put takes before it fails.
    pub kept: u32,
    /// The file that is not there, counted from 1; 0 for none.
    pub absent: u32,
}

/// No call fails.
pub const SOUND: Failures = Failures {
    load: 0,
    put: 0,
    kept: 0,
    absent: 0,
};

/// Tells where memory was wanting.
pub(crate) fn suffice(page: &mut Page, answer: Result<(), NoMemory>) {
    if answer.is_err() {
        page.word("memory was wanting\n");
    }
}

/// Adds a word.
fn add_word(page: &mut Page, words: &mut Vec<String>, word: &str) {
    if let Ok(word) = String::from_str(page.alloc(), word)
        && words.push(word).is_ok()
    {
        return;
    }
    page.word("memory was wanting\n");
}

/// The words of a line, with the program's name in front.
pub(crate) fn words_of(page: &mut Page, line: &str) -> Vec<String> {
    let mut words = Vec::new(page.alloc());
    add_word(page, &mut words, "verity");
    if !line.is_empty() {
        for word in line.split(' ') {
            add_word(page, &mut words, word);
        }
    }
    words
}

/// Tells how a run ended, and what it wrote.
fn tell_end(page: &mut Page, name: &str, status: Status, written: &[u8]) {
    page.word(name);
    page.word(": ");
    page.debug(&status);
    page.word("\n");
    page.name(written);
}

/// Adds the files of a row, which never fail.
fn add_sure(page: &mut Page, files: &mut SureFiles, row: Row<'_>) {
    suffice(page, files.add("c.sp", row.netlist));
    suffice(page, files.add("m.blif", row.models));
    suffice(page, files.add("r.txt", row.rules));
}

/// Runs a row: its name and the status, and behind them the lines that are written.
pub(crate) fn run_sure(page: &mut Page, name: &str, row: Row<'_>) {
    let words = words_of(page, row.words);
    let mut files = SureFiles::new(page.alloc());
    add_sure(page, &mut files, row);
    let mut out = SureSink::new(page.alloc());
    let status = run(page.alloc(), words.as_slice(), &mut files, &mut out);
    tell_end(page, name, status, out.bytes());
}

/// Adds a file that is there.
fn add_present(page: &mut Page, files: &mut MemFiles, name: &str, text: &[u8], is_absent: bool) {
    if !is_absent {
        suffice(page, files.add(name, text));
    }
}

/// Adds the files of a row, of which one may not be there and one load may fail.
fn add_failing(page: &mut Page, files: &mut MemFiles, row: Row<'_>, failures: Failures) {
    add_present(page, files, "c.sp", row.netlist, failures.absent == 1);
    add_present(page, files, "m.blif", row.models, failures.absent == 2);
    add_present(page, files, "r.txt", row.rules, failures.absent == 3);
    if failures.load > 0 {
        suffice(page, files.fail_at(failures.load));
    }
}

/// Runs these words: a name, the status, and what was written, with a bar where it ends.
pub(crate) fn run_failing(
    page: &mut Page,
    name: &str,
    words: &str,
    files: &mut MemFiles,
    out: &mut MemSink,
) {
    let words = words_of(page, words);
    let status = run(page.alloc(), words.as_slice(), files, out);
    tell_end(page, name, status, out.bytes());
    page.word("|\n");
}

/// Runs a row in which calls fail.
pub(crate) fn run_row(page: &mut Page, name: &str, row: Row<'_>, failures: Failures) {
    let mut files = MemFiles::new(page.alloc());
    add_failing(page, &mut files, row, failures);
    let mut out = MemSink::new(page.alloc());
    if failures.put > 0 {
        suffice(page, out.fail_at(failures.put, failures.kept));
    }
    run_failing(page, name, row.words, &mut files, &mut out);
}
