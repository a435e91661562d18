//! A row with every front of one of its texts, as of a file that was cut off.

use crate::row::{Row, run_sure};
use row_script::{Page, Part};

/// A text of a row.
fn text_of<'a>(row: Row<'a>, part: Part) -> &'a [u8] {
    match part {
        Part::Netlist => row.netlist,
        Part::Models => row.models,
        Part::Rules => row.rules,
    }
}

/// The row with another text in the place of one.
fn with_text<'a>(row: Row<'a>, part: Part, text: &'a [u8]) -> Row<'a> {
    let mut changed = row;
    match part {
        Part::Netlist => changed.netlist = text,
        Part::Models => changed.models = text,
        Part::Rules => changed.rules = text,
    }
    changed
}

/// Tells what is answered of the row with each front of a text, from none of its bytes to all: an answer that is another than that of the front
/// before comes with the count of bytes from which on it is given.
pub(crate) fn tell(page: &mut Page, name: &str, row: Row<'_>, part: Part) {
    page.word(name);
    page.word(":\n");
    let text = text_of(row, part);
    let mut last = Page::new(page.alloc());
    for count in 0..=text.len() {
        let mut answer = Page::new(page.alloc());
        run_sure(&mut answer, " bytes", with_text(row, part, &text[..count]));
        if answer.written() != last.written() {
            page.count(count, "");
            page.bytes(answer.written());
            last = answer;
        }
    }
}
