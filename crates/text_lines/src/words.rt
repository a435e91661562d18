//! The words of a line, one by one from its bytes.

ghost use Rattle.std.specs.Prelude.{◌≡◌, ◌<◌, ◌+◌, ◌∷◌, [], length, map, take, true, IfOk, IfSome, IfNone};
ghost use Rattle.text_lines.specs.Bytes.{kept, lowered, words_of};
ghost use Rattle.text_lines.specs.Fronts.{up_to_words};

use crate::bytes::is_blank_byte;
use crate::cuts::cut_part;
use std::alloc::Global;
use std::marker::Model;
use vrt_model::{NoMemory, Text};

/// A line without a blank as its one word, if it has a byte, and the empty line behind it.
fn only_word(line: &[u8]) -> Option<(&[u8], &[u8])>
    requires { words_of line.now ≡ kept line.now }
    ensures word { IfSome result (λ p. (length p.1.now < length line.now) × (words_of line.now ≡ p.0.now ∷ words_of p.1.now)) }
    ensures none { IfNone result (words_of line.now ≡ []) }
{
    match line.split_first() {
        Some(_) => Some((line, &[])),
        None => None,
    }
}

/// The first word and what is behind it. None exactly where there is no word.
pub fn first_word(line: &[u8]) -> Option<(&[u8], &[u8])>
    ensures word { IfSome result (λ p. (length p.1.now < length line.now) × (words_of line.now ≡ p.0.now ∷ words_of p.1.now)) }
    ensures none { IfNone result (words_of line.now ≡ []) }
{
    let mut rest = line;
    'cuts: while let Some((part, behind)) = cut_part(rest) {
        if !part.is_empty() {
            return Some((part, behind));
        }
        rest = behind;
    }
    only_word(rest)
}

/// How many words a line has.
pub fn count_words(line: &[u8]) -> usize
    ensures { result ≡ length (words_of line.now) }
{
    let mut count = 0usize;
    let mut rest = line;
    'words: while let Some((_, behind)) = first_word(rest) {
        count += 1;
        rest = behind;
    }
    count
}

/// A line up to its first words, so many of them.
pub fn first_words(count: usize, line: &[u8]) -> &[u8]
    ensures { words_of result.now ≡ take count (words_of line.now) }
{
    front(count, line)
}

/// A line up to where a word more than so many begins.
fn front(count: usize, line: &[u8]) -> &[u8]
    ensures { result.now ≡ up_to_words count true line.now }
{
    let mut left = count;
    let mut is_between = true;
    let mut at = 0;
    'bytes: while at < line.len() {
        if is_blank_byte(line[at]) {
            is_between = true;
        } else if is_between {
            if left == 0 {
                return &line[..at];
            }
            left -= 1;
            is_between = false;
        }
        at += 1;
    }
    line
}

/// Bytes in lower case.
fn lower(alloc: Global, bytes: &[u8]) -> Result<Text, NoMemory>
    ensures { IfOk result (λ text. text ≡ lowered bytes.now) }
{
    let mut text = Text::new(alloc);
    for b in bytes {
        if text.push(b.to_ascii_lowercase()).is_err() {
            return Err(NoMemory);
        }
    }
    Ok(text)
}

/// A list of words, kept as the bytes of a line: a word takes no more than its bytes and a blank.
pub struct WordList {
    line: Text,
}

/// By hand, so that letting go of one is a call.
impl Drop for WordList {
    fn drop(self) {
        let WordList { line: _line } = self;
    }
}

impl Model for WordList {
    ghost use Rattle.std.specs.Prelude.{ℕ, List};
    ghost use Rattle.text_lines.specs.Bytes.{words_of};

    ghost Value = { List (List ℕ) };

    ghost view = { λ w. words_of w.line };
}

impl WordList {
    /// The words of a line, in lower case.
    pub fn lowered(alloc: Global, line: &[u8]) -> Result<Self, NoMemory>
        ensures { IfOk result (λ words. words ≡ map lowered (words_of line.now)) }
    {
        let line = lower(alloc, line)?;
        Ok(WordList { line })
    }

    /// The words as a line, to go over.
    pub fn as_line(&self) -> &[u8]
        ensures { words_of result.now ≡ self.now }
    {
        self.line.as_bytes()
    }
}
