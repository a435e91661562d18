//! Bits behind their names, as `a=1 b=0`.

ghost use Rattle.std.specs.Prelude.{◌≡◌, ◌∷◌, ◌++◌, OnOk, codes};
ghost use Rattle.arrival_lines.specs.Settings.{setting_behind, settings_behind};
ghost use Rattle.vrt_model.specs.VerdictText.{bit_text, valuation_text};

use vrt_model::{NoMemory, Text};

/// A bit as a word.
fn bit_word(bit: bool) -> &'static [u8]
    ensures { result.now ≡ bit_text bit }
{
    if bit { b"1" } else { b"0" }
}

/// Adds a name with its bit behind a space.
fn add_setting(text: &mut Text, name: &[u8], bit: bool) -> Result<(), NoMemory>
    ensures { OnOk result (text.new ≡ text.old ++ setting_behind name.now bit) }
{
    text.extend(b" ")?;
    text.extend(name)?;
    text.extend(b"=")?;
    text.extend(bit_word(bit))
}

/// Adds names with their bits, each behind a space.
fn add_settings(text: &mut Text, names: &[Text], bits: &[bool]) -> Result<(), NoMemory>
    ensures { OnOk result (text.new ≡ text.old ++ settings_behind names.now bits.now) }
{
    let mut names_left = names;
    let mut bits_left = bits;
    'variables: while let (Some((name, names)), Some((bit, bits))) = (
        names_left.split_first(),
        bits_left.split_first(),
    ) {
        add_setting(text, name.as_bytes(), *bit)?;
        names_left = names;
        bits_left = bits;
    }
    Ok(())
}

/// Adds a dash behind a space.
fn add_dash(text: &mut Text) -> Result<(), NoMemory>
    ensures { OnOk result (text.new ≡ text.old ++ codes " -") }
{
    text.extend(b" -")
}

/// Adds a valuation behind a space: names with their bits, or a dash where there is none.
pub(crate) fn add_valuation(text: &mut Text, names: &[Text], bits: &[bool]) -> Result<(), NoMemory>
    ensures { OnOk result (text.new ≡ text.old ++ 32 ∷ valuation_text names.now bits.now) }
{
    if names.is_empty() {
        return add_dash(text);
    }
    if bits.is_empty() {
        return add_dash(text);
    }
    add_settings(text, names, bits)
}
