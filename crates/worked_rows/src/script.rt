//! The lines of standard input. Texts are given as `row_script` says. What a line gives stays for the runs behind it, until
//! another line gives it anew.
//!
//! | line | meaning |
//! |---|---|
//! | `words WORDS` | the words behind the name of the program, with a space between two |
//! | `run NAME` | a run over files and an output that never fail |
//! | `load N`, `put N BYTES`, `absent N` | in the next `try` the load of this number fails; the put of this number, after so many bytes; the file of this number is not there |
//! | `try NAME` | a run in which calls fail as was said; then nothing fails again |
//! | `fronts NAME` | a run with each front of the text that was begun last, from none of its bytes to all; an answer that is another than the one before is told, with the count of bytes from which on it comes |
//! | `tell WORDS` | what the words ask for |
//! | `compare NAME` | the verdict on the first cell |
//! | `whole NAME` | the checked circuit of the second cell, by what is known of the first |
//! | `ask NAME CELL BUDGET BITS TIMES PHASES` | what the workspace of the first cell (0), or of the second (1) by what is known of the first, answers for these phases in this order, each asked for so often, with the bits of so many variables for a fault |

use crate::row::{Failures, Row, SOUND, run_row, run_sure};
use crate::told::tell;
use crate::{fronts, rooms, verdicts, wholes};
use row_script::{Page, Script, number, shown, word_and_rest};
use std::alloc::Global;

/// What the lines so far give.
pub struct Runs {
    texts: Script,
    words: Page,
    failures: Failures,
}

/// By hand, so that letting go of one is a call.
impl Drop for Runs {
    fn drop(self) {
        let Runs {
            texts: _texts,
            words: _words,
            failures: _failures,
        } = self;
    }
}

impl Runs {
    /// Nothing is given yet.
    pub(crate) fn new(alloc: Global) -> Runs {
        Runs {
            texts: Script::new(alloc),
            words: Page::new(alloc),
            failures: SOUND,
        }
    }

    /// What the next run is given.
    fn row(&self) -> Row<'_> {
        Row {
            words: shown(self.words.written()),
            netlist: self.texts.netlist.written(),
            models: self.texts.models.written(),
            rules: self.texts.rules.written(),
        }
    }

    /// The next run has these words.
    fn give_words(&mut self, words: &str) {
        self.words.clear();
        self.words.word(words);
    }

    /// The put that fails in the next `try`, and how many bytes it takes.
    fn give_put(&mut self, rest: &str) {
        let (put, kept) = word_and_rest(rest);
        self.failures.put = number(put);
        self.failures.kept = number(kept);
    }

    /// A run in which calls fail as was said.
    fn run_failing(&mut self, page: &mut Page, name: &str) {
        run_row(page, name, self.row(), self.failures);
        self.failures = SOUND;
    }

    /// Takes a line, and tells what it asks for.
    pub(crate) fn take(&mut self, page: &mut Page, line: &str) {
        let (word, rest) = word_and_rest(line);
        if self.texts.give(word, rest) {
            return;
        }
        match word {
            "words" => self.give_words(rest),
            "load" => self.failures.load = number(rest),
            "absent" => self.failures.absent = number(rest),
            "put" => self.give_put(rest),
            "run" => run_sure(page, rest, self.row()),
            "try" => self.run_failing(page, rest),
            "fronts" => fronts::tell(page, rest, self.row(), self.texts.part),
            "tell" => tell(page, rest),
            "compare" => verdicts::tell(page, rest, self.row()),
            "whole" => wholes::tell(page, rest, self.row()),
            "ask" => rooms::tell(page, rest, self.row()),
            _ => page.word(line),
        }
    }
}
