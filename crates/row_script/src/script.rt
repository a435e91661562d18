//! The lines of standard input. Some give texts, which stay until they are begun anew; every other asks something: what is
//! asked, `: ` and the name of the case.
//!
//! | line | meaning |
//! |---|---|
//! | `netlist`, `models`, `rules` | a text begins, empty |
//! | `\| LINE` | the text that was begun goes on with this line |
//! | `> BYTES` | the same without a line feed at the end |
//! | `times N BYTES` | the same so many times, with the numbers from 0 on |
//!
//! In all of them `%HH` is the byte of two hexadecimal digits, and in the last `%#` is the number and `%+` the one after it.
//! Empty lines and those that begin with `# ` are passed over. A line that is none of these is told as it is.

use crate::marks::add_marked;
use crate::page::{Page, number};
use std::alloc::Global;

/// Which reader reads a text.
#[derive(Clone, Copy)]
pub enum Part {
    /// `read_spice`
    Netlist,
    /// `read_blif`
    Models,
    /// `read_rules`
    Rules,
}

/// The texts that the lines so far give, and which was begun last.
pub struct Script {
    /// The netlist that was begun last.
    pub netlist: Page,
    /// The models that were begun last.
    pub models: Page,
    /// The rules that were begun last.
    pub rules: Page,
    /// Which of the three goes on.
    pub part: Part,
}

/// By hand, so that letting go of one is a call.
impl Drop for Script {
    fn drop(self) {
        let Script {
            netlist: _netlist,
            models: _models,
            rules: _rules,
            part: _part,
        } = self;
    }
}

/// A line that begins with a word, and the rest behind a blank.
pub fn word_and_rest(line: &str) -> (&str, &str) {
    line.split_once(' ').unwrap_or((line, ""))
}

impl Script {
    /// No text is given yet.
    pub fn new(alloc: Global) -> Script {
        Script {
            netlist: Page::new(alloc),
            models: Page::new(alloc),
            rules: Page::new(alloc),
            part: Part::Netlist,
        }
    }

    /// The text that was begun last.
    pub fn text(&self) -> &[u8] {
        match self.part {
            Part::Netlist => self.netlist.written(),
            Part::Models => self.models.written(),
            Part::Rules => self.rules.written(),
        }
    }

    /// The same to be gone on with.
    fn begun(&mut self) -> &mut Page {
        match self.part {
            Part::Netlist => &mut self.netlist,
            Part::Models => &mut self.models,
            Part::Rules => &mut self.rules,
        }
    }

    /// Begins a text.
    fn begin(&mut self, part: Part) {
        self.part = part;
        self.begun().clear();
    }

    /// Takes a line, and gives what it asks and the name of the case; none of a line that gives text. A line that is neither
    /// is told.
    pub fn take<'a>(&mut self, page: &mut Page, line: &'a str) -> Option<(&'a str, &'a str)> {
        let (word, rest) = word_and_rest(line);
        if self.give(word, rest) {
            return None;
        }
        let asked = line.split_once(": ");
        if asked.is_none() {
            page.word(line);
        }
        asked
    }

    /// Takes a line that gives text, and says whether it was one.
    pub fn give(&mut self, word: &str, rest: &str) -> bool {
        match word {
            "" => {}
            "#" => {}
            "netlist" => self.begin(Part::Netlist),
            "models" => self.begin(Part::Models),
            "rules" => self.begin(Part::Rules),
            "|" => add_line(self.begun(), rest),
            ">" => add_marked(self.begun(), rest, 0),
            "times" => add_times(self.begun(), rest),
            _ => return false,
        }
        true
    }
}

/// Adds a line.
fn add_line(text: &mut Page, line: &str) {
    add_marked(text, line, 0);
    text.word("\n");
}

/// Adds bytes so many times.
fn add_times(text: &mut Page, rest: &str) {
    let (times, bytes) = word_and_rest(rest);
    for at in 0..number(times) {
        add_marked(text, bytes, at);
    }
}
