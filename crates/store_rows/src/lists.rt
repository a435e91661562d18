//! Texts and lists keep what is pushed.

use crate::stop::Stop;
use row_script::Page;
use std::alloc::Global;
use vrt_model::{Seq, Text};

/// A text of three pieces.
fn text(alloc: Global) -> Result<Text, Stop> {
    let mut text = Text::from_bytes(alloc, b"ne")?;
    if text.push(b't').is_err() {
        return Err(Stop::NoMemory);
    }
    text.extend(b"s7")?;
    Ok(text)
}

/// Tells a text of three pieces, by its bytes, and one without any.
pub(crate) fn tell_text(page: &mut Page) -> Result<(), Stop> {
    let text = text(page.alloc())?;
    page.word("text: ");
    page.debug(&text.as_bytes());
    page.word(", ");
    page.count(text.len(), " bytes\ntext: empty ");
    page.bit(text.is_empty());
    page.word(" and ");
    page.bit(Text::new(page.alloc()).is_empty());
    page.word("\n");
    Ok(())
}

/// Three numbers.
fn list(alloc: Global) -> Result<Seq<u32>, Stop> {
    let mut list = Seq::new(alloc);
    for number in [3u32, 1, 4] {
        if list.push(number).is_err() {
            return Err(Stop::NoMemory);
        }
    }
    Ok(list)
}

/// Tells a list of three numbers, and what stands at its end and behind it.
pub(crate) fn tell_list(page: &mut Page) -> Result<(), Stop> {
    let list = list(page.alloc())?;
    page.word("list: ");
    page.debug(&list.as_slice());
    page.word(", empty ");
    page.bit(list.is_empty());
    page.word("\nlist: ");
    page.debug(&list.get(2));
    page.word(" at 2, ");
    page.debug(&list.get(3));
    page.word(" at 3\n");
    Ok(())
}
