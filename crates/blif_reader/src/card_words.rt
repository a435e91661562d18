//! The words of a card.

ghost use Rattle.std.specs.Prelude.{◌≡◌, ◌∷◌, suc, length, IfOk};
ghost use Rattle.text_lines.specs.Bytes.{words_of};
ghost use Rattle.text_lines.specs.Words.{word_at};

use std::alloc::Global;
use std::marker::Model;
use text_lines::first_word;
use vrt_model::{NoMemory, Text};

/// The words of a card, at least one: the first, which is asked for again and again, and the others as the bytes of a line.
pub struct CardWords {
    /// The first word.
    first: Text,
    /// The words behind it, with blanks between them.
    rest: Text,
}

/// By hand, so that letting go of them is a call.
impl Drop for CardWords {
    fn drop(self) {
        let CardWords {
            first: _first,
            rest: _rest,
        } = self;
    }
}

impl Model for CardWords {
    ghost use Rattle.std.specs.Prelude.{ℕ, List, ◌∷◌};
    ghost use Rattle.text_lines.specs.Bytes.{words_of};

    ghost Value = { List (List ℕ) };

    ghost view = { λ w. w.first ∷ words_of w.rest };
}

/// How many words there are where one stands before those of a line.
fn count_with_first(line: &[u8]) -> usize
    ensures { result ≡ suc (length (words_of line.now)) }
{
    let mut count = 1usize;
    let mut rest = line;
    'words: while let Some((_, behind)) = first_word(rest) {
        count += 1;
        rest = behind;
    }
    count
}

impl CardWords {
    /// A word, and those of a line behind it.
    pub fn of_parts(alloc: Global, first: &[u8], rest: &[u8]) -> Result<Self, NoMemory>
        ensures { IfOk result (λ words. words ≡ first.now ∷ words_of rest.now) }
    {
        let first = Text::from_bytes(alloc, first)?;
        let rest = Text::from_bytes(alloc, rest)?;
        Ok(CardWords { first, rest })
    }

    /// The first word.
    pub fn first(&self) -> &[u8]
        ensures { result.now ≡ word_at self.now 0 }
    {
        self.first.as_bytes()
    }

    /// The first word, and those behind it as a line, to go over.
    pub fn parts(&self) -> (&[u8], &[u8])
        ensures { self.now ≡ result.0.now ∷ words_of result.1.now }
    {
        (self.first.as_bytes(), self.rest.as_bytes())
    }

    /// How many words there are.
    pub fn len(&self) -> usize
        ensures { result ≡ length self.now }
    {
        count_with_first(self.rest.as_bytes())
    }
}
