//! Names that may not be written.

ghost use Rattle.std.specs.Prelude.{◌≡◌, ◌&&◌, ◌∷◌, [], find};
ghost use Rattle.std.specs.List.{list_all};
ghost use Rattle.std.specs.Option.{option_copied, option_or};
ghost use Rattle.blif_reader.specs.Cards.{ends_with_backslash};
ghost use Rattle.model_writer.specs.Refused.{interface_names, is_refused};
ghost use Rattle.plain_models.specs.Lines.{is_word_byte};
ghost use Rattle.text_lines.specs.Bytes.{starts};
ghost use Rattle.written_models.specs.Written.{is_free_name};

use crate::model::ModelLines;
use vrt_model::Text;

/// Whether both bits are set.
fn both(left: bool, right: bool) -> bool
    ensures { result ≡ (left && right) }
{
    left && right
}

/// Whether a byte may stand in a name: text, no blank and no `#`.
fn is_word_byte(byte: u8) -> bool
    ensures { result ≡ is_word_byte byte }
{
    let is_text = byte == b'\t' || (32 <= byte && byte <= 126);
    let is_blank = byte == b' ' || byte == b'\t';
    is_text && !is_blank && byte != b'#'
}

/// Whether each byte may stand in a name.
fn has_word_bytes(name: &[u8]) -> bool
    ensures { result ≡ list_all is_word_byte name.now }
{
    for byte in name {
        if !is_word_byte(*byte) {
            return false;
        }
    }
    true
}

/// Whether the last byte is a `\`.
fn ends_with_backslash(name: &[u8]) -> bool
    ensures { result ≡ ends_with_backslash name.now }
{
    let mut ends = false;
    for byte in name {
        ends = *byte == b'\\';
    }
    ends
}

/// Whether the first byte is `=`, as that of the signals of nodes.
fn begins_as_number(name: &[u8]) -> bool
    ensures { result ≡ starts 61 name.now }
{
    match name.get(0) {
        Some(byte) => *byte == b'=',
        None => false,
    }
}

/// Whether a name may be written.
fn is_free_name(name: &[u8]) -> bool
    ensures { result ≡ is_free_name name.now }
{
    let has_words = both(!name.is_empty(), has_word_bytes(name));
    let is_word = both(has_words, !ends_with_backslash(name));
    both(is_word, !begins_as_number(name))
}

/// The first of some names that may not be written.
fn first_refused(names: &[Text]) -> Option<&Text>
    ensures { option_copied result ≡ find is_refused names.entry.now }
{
    for name in names {
        if !is_free_name(name.as_bytes()) {
            return Some(name);
        }
    }
    None
}

/// A name, if it may not be written.
fn refused_one(name: &Text) -> Option<&Text>
    ensures { option_copied result ≡ find is_refused (name.entry.now ∷ []) }
{
    if is_free_name(name.as_bytes()) {
        None
    } else {
        Some(name)
    }
}

/// The first that was found, else the first of some more names.
fn or_refused<'a>(found: Option<&'a Text>, names: &'a [Text]) -> Option<&'a Text>
    ensures { option_copied result ≡ option_or (option_copied found.entry) (find is_refused names.entry.now) }
{
    match found {
        Some(name) => Some(name),
        None => first_refused(names),
    }
}

/// The first name that may not be written: the name of the model, and then those of its interface. Such a name is empty, begins with `=`, holds
/// `#`, a blank or a byte that is no text, or ends with `\`.
pub fn refused_name<'a>(lines: ModelLines<'a>) -> Option<&'a Text>
    ensures { option_copied result ≡ find is_refused (interface_names lines.entry) }
{
    let own = refused_one(lines.name);
    let inputs = or_refused(own, lines.inputs);
    let clocks = or_refused(inputs, lines.clocks);
    or_refused(clocks, lines.outputs)
}
