//! Files and sinks in memory: alone, and over several runs.

use crate::row::{run_failing, suffice};
use row_script::Page;
use vrt_io::{Files, MAX_FILE_LEN, MemFiles, MemSink, Sink, SureFiles, SureSink};

/// The words that name the three files and nothing else.
const THREE_FILES: &str = "c.sp m.blif r.txt";

/// The netlist of an inverter.
const INVERTER: &str = "t\n.subckt inv a y\nm1 y a vdd vdd p\nm2 y a gnd gnd n\n.ends\n";

/// The two supplies, and the two kinds of devices.
const RULES: &str = "supply 1 vdd\nsupply 0 gnd\ndevice n n\ndevice p p\n";

/// Loads a file and tells what came of it.
fn load<F: Files>(page: &mut Page, files: &mut F, name: &str) {
    let mut into = Vec::new(page.alloc());
    let loaded = files.load(page.alloc(), name, &mut into);
    page.word("load ");
    page.word(name);
    page.word(": ");
    page.debug(&loaded);
    page.word(" ");
    page.name(into.as_slice());
    page.word("|\n");
}

/// Loads files, with a blank between the names of two, and tells what came of each.
pub(crate) fn load_all<F: Files>(page: &mut Page, files: &mut F, names: &str) {
    for name in names.split(' ') {
        load(page, files, name);
    }
}

/// Puts a piece and tells what came of it.
fn put<O: Sink>(page: &mut Page, out: &mut O, piece: &str) {
    let put = out.put(piece.as_bytes());
    page.word("put ");
    page.word(piece);
    page.word(": ");
    page.debug(&put);
    page.word("\n");
}

/// Puts pieces, with a comma between two, and tells what came of each.
pub(crate) fn put_all<O: Sink>(page: &mut Page, out: &mut O, pieces: &str) {
    for piece in pieces.split(',') {
        put(page, out, piece);
    }
}

/// Tells the bytes that a sink has.
fn tell_bytes(page: &mut Page, bytes: &[u8]) {
    page.name(bytes);
    page.word("|\n");
}

/// So many bytes.
pub(crate) fn long(page: &mut Page, len: usize) -> Vec<u8> {
    match vec![in page.alloc(); b'x'; len] {
        Ok(long) => long,
        Err(_) => {
            page.word("memory was wanting\n");
            Vec::new(page.alloc())
        }
    }
}

/// Adds a file of one byte more than a file may have, in place of one of the same name.
fn add_long(page: &mut Page, files: &mut MemFiles, name: &str) {
    let long = long(page, MAX_FILE_LEN + 1);
    suffice(page, files.add(name, long.as_slice()));
}

/// A file in place of another, a load that fails, a name that is not there, and a file that is too long.
pub(crate) fn tell_loads(page: &mut Page) {
    let mut files = MemFiles::new(page.alloc());
    suffice(page, files.add("a", b"one"));
    suffice(page, files.add("a", b"two"));
    suffice(page, files.fail_at(2));
    load_all(page, &mut files, "a a a b");
    add_long(page, &mut files, "a");
    load_all(page, &mut files, "a");
}

/// A put that fails after some bytes.
pub(crate) fn tell_puts(page: &mut Page) {
    let mut out = MemSink::new(page.alloc());
    suffice(page, out.fail_at(2, 4));
    put_all(page, &mut out, "first ,second,!");
    tell_bytes(page, out.bytes());
}

/// Files that never fail, and a sink that never does.
pub(crate) fn tell_sure_ones(page: &mut Page) {
    let mut files = SureFiles::new(page.alloc());
    suffice(page, files.add("a", b"one"));
    load_all(page, &mut files, "b a");
    let mut out = SureSink::new(page.alloc());
    put_all(page, &mut out, "one");
    tell_bytes(page, out.bytes());
}

/// Adds the files of an inverter, with a card outside a model.
fn add_refused(page: &mut Page, files: &mut MemFiles) {
    suffice(page, files.add("c.sp", INVERTER.as_bytes()));
    suffice(page, files.add("m.blif", b".inputs a\n"));
    suffice(page, files.add("r.txt", RULES.as_bytes()));
}

/// A run over three files into a sink whose put of a number fails after four bytes.
fn tell_run(page: &mut Page, name: &str, files: &mut MemFiles, put: u32) {
    let mut out = MemSink::new(page.alloc());
    suffice(page, out.fail_at(put, 4));
    run_failing(page, name, THREE_FILES, files, &mut out);
}

/// Runs over the same files, one after the other: calls are counted over all of them. No run has more than one put.
pub(crate) fn tell_later_runs(page: &mut Page) {
    let mut files = MemFiles::new(page.alloc());
    add_refused(page, &mut files);
    tell_run(page, "refusal_cut_off", &mut files, 1);
    suffice(page, files.fail_at(5));
    tell_run(page, "fifth_load_fails", &mut files, 2);
    add_long(page, &mut files, "c.sp");
    tell_run(page, "file_one_byte_too_long", &mut files, 2);
}
