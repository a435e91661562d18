//! Pieces of lines.

ghost use Rattle.std.specs.Prelude.{◌≡◌, ◌++◌, ◌∷◌, OnOk};
ghost use Rattle.model_writer.specs.Pieces.{words_behind};
ghost use Rattle.written_models.specs.Written.{numbered};

use itoa::Buffer;
use vrt_model::{NoMemory, Text};

/// Adds the signal of a number behind a space.
pub(crate) fn add_signal(text: &mut Text, number: u32) -> Result<(), NoMemory>
    ensures { OnOk result (text.new ≡ text.old ++ 32 ∷ numbered number) }
{
    text.extend(b" =")?;
    let mut buffer = Buffer::new();
    text.extend(buffer.format(number).as_bytes())?;
    Ok(())
}

/// Adds a word behind a space.
pub(crate) fn add_word(text: &mut Text, word: &Text) -> Result<(), NoMemory>
    ensures { OnOk result (text.new ≡ text.old ++ 32 ∷ word.now) }
{
    text.extend(b" ")?;
    text.extend(word.as_bytes())?;
    Ok(())
}

/// Adds words, each behind a space.
pub(crate) fn add_words(text: &mut Text, words: &[Text]) -> Result<(), NoMemory>
    ensures { OnOk result (text.new ≡ text.old ++ words_behind words.now) }
{
    for word in words {
        add_word(text, word)?;
    }
    Ok(())
}
