//! Sets of names.

use names::Names;
use row_script::{Page, word_and_rest};

/// Tells of a set to which names are added, with a comma between two.
///
/// | word | what is told |
/// |---|---|
/// | `empty` | whether it is empty before |
/// | `numbers` | the numbers of the names while they are added |
/// | `copies` | how many names there are then, and how many copies are made of them |
/// | `place` | the place of `gnd` |
/// | `upper` | whether `VDD` is there |
/// | `joined` | how many names a set has that has `gnd` and `clk` first, and then all of this |
pub(crate) fn tell(page: &mut Page, asked: &str) {
    let (word, given) = word_and_rest(asked);
    let mut names = Names::new(page.alloc());
    if word == "empty" {
        return page.bit(names.is_empty());
    }
    add(page, &mut names, given, word == "numbers");
    answer(page, &names, word);
}

/// Adds names to a set, and tells their numbers if they are asked for.
fn add(page: &mut Page, names: &mut Names, given: &str, is_asked: bool) {
    let mut is_behind = false;
    for name in given.split(',') {
        let Ok(number) = names.number(name.as_bytes()) else {
            return page.word("memory");
        };
        if is_asked && is_behind {
            page.word(" ");
        }
        if is_asked {
            page.count(number, "");
        }
        is_behind = true;
    }
}

/// Tells of a set of names.
fn answer(page: &mut Page, names: &Names, word: &str) {
    match word {
        "numbers" => {}
        "copies" => tell_copies(page, names),
        "place" => page.count(names.place(b"gnd").unwrap_or(9), ""),
        "upper" => page.bit(names.contains(b"VDD")),
        "joined" => tell_joined(page, names),
        _ => page.word("no such word"),
    }
}

/// Tells the count of names, and how many copies are made of them.
fn tell_copies(page: &mut Page, names: &Names) {
    match names.to_texts(page.alloc()) {
        Ok(texts) => {
            page.count(names.len(), " ");
            page.count(texts.len(), "");
        }
        Err(_) => page.word("memory"),
    }
}

/// Tells how many names a set has that has `gnd` and `clk` first, and then all of another.
fn tell_joined(page: &mut Page, others: &Names) {
    let mut names = Names::new(page.alloc());
    if names.number(b"gnd").is_err() || names.number(b"clk").is_err() {
        return page.word("memory");
    }
    join(page, &mut names, others);
    page.count(names.len(), "");
}

/// Adds all names of another set.
fn join(page: &mut Page, names: &mut Names, others: &Names) {
    let Ok(texts) = others.to_texts(page.alloc()) else {
        return page.word("memory");
    };
    if names.add_all(texts.as_slice()).is_err() {
        page.word("memory");
    }
}
