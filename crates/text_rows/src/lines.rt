//! Lines of texts, and their words.

use crate::MOST_BYTES;
use row_script::Page;
use text_lines::{Line, cut_lines, cut_words, numbered_lines};

/// Tells how many lines a text has.
fn tell_count(page: &mut Page, text: &[u8]) {
    match cut_lines(page.alloc(), text) {
        Ok(lines) => page.count(lines.len(), " lines"),
        Err(_) => page.word("memory"),
    }
}

/// Tells the number, the bytes and the count of words of a line.
fn tell_line(page: &mut Page, line: Line<'_>) {
    page.word(", line ");
    page.number(line.number);
    page.word(" is ");
    page.debug(&line.bytes);
    page.word(", ");
    match cut_words(page.alloc(), line.bytes) {
        Ok(words) => page.count(words.len(), " words"),
        Err(_) => page.word("memory"),
    }
}

/// Tells the last of the numbered lines.
fn tell_last(page: &mut Page, text: &[u8]) {
    if text.len() > MOST_BYTES {
        return page.word("too many bytes");
    }
    match numbered_lines(page.alloc(), text) {
        Ok(lines) => match lines.as_slice().last() {
            Some(line) => tell_line(page, *line),
            None => page.word("no line"),
        },
        Err(_) => page.word("memory"),
    }
}

/// Tells how many lines a text has, and the number, the bytes and the count of words of the last.
pub(crate) fn tell(page: &mut Page, text: &[u8]) {
    tell_count(page, text);
    tell_last(page, text);
}
