//! The words of a card.

ghost use Rattle.std.specs.Prelude.{◌≡◌, [], IfOk};
ghost use Rattle.text_lines.specs.Bytes.{words_of};
ghost use Rattle.text_lines.specs.Words.{word_at};

use std::alloc::Global;
use std::marker::Model;
use text_lines::first_word;
use vrt_model::{NoMemory, Text};

/// The words of a card, kept as the bytes of a line, and the first, which is asked for again and again.
pub struct CardWords {
    /// The first word, empty where there is none.
    first: Text,
    /// All words, with blanks between them.
    line: Text,
}

/// By hand, so that letting go of them is a call.
impl Drop for CardWords {
    fn drop(self) {
        let CardWords {
            first: _first,
            line: _line,
        } = self;
    }
}

impl Model for CardWords {
    ghost use Rattle.std.specs.Prelude.{ℕ, List, ◌≡◌};
    ghost use Rattle.text_lines.specs.Bytes.{words_of};
    ghost use Rattle.text_lines.specs.Words.{word_at};

    ghost Value = { List (List ℕ) };

    ghost view = { λ w. words_of w.line };

    ghost invariant = { λ w. w.first ≡ word_at (words_of w.line) 0 };
}

/// The first word of a line, empty where there is none.
fn first_of(line: &[u8]) -> &[u8]
    ensures { result.now ≡ word_at (words_of line.now) 0 }
{
    match first_word(line) {
        Some((word, _)) => word,
        None => &[],
    }
}

impl CardWords {
    /// No words. They take no memory.
    pub fn new(alloc: Global) -> Self
        ensures { result ≡ [] }
    {
        CardWords {
            first: Text::new(alloc),
            line: Text::new(alloc),
        }
    }

    /// The words of a line.
    pub fn of_line(alloc: Global, line: Text) -> Result<Self, NoMemory>
        ensures { IfOk result (λ words. words ≡ words_of line) }
    {
        let first = Text::from_bytes(alloc, first_of(line.as_bytes()))?;
        Ok(CardWords { first, line })
    }

    /// The first word, empty where there is none.
    pub fn first(&self) -> &[u8]
        ensures { result.now ≡ word_at self.now 0 }
    {
        self.first.as_bytes()
    }

    /// The words as a line, to go over.
    pub fn as_line(&self) -> &[u8]
        ensures { words_of result.now ≡ self.now }
    {
        self.line.as_bytes()
    }
}
