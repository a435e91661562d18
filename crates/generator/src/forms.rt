//! Forms that are filled for each place.

ghost use Rattle.std.specs.Prelude.{◌≡◌, ◌++◌, ◌<◌, OnOk};
ghost use Rattle.std.specs.Fmt.{decimal};
ghost use Rattle.generator.specs.Forms.{meaning, filled, for_each};

use itoa::Buffer;
use vrt_model::{NoMemory, Text};

/// Adds a number in decimal.
pub fn add_number(text: &mut Text, number: u32) -> Result<(), NoMemory>
    ensures { OnOk result (text.new ≡ text.old ++ decimal number) }
{
    let mut buffer = Buffer::new();
    text.extend(buffer.format(number).as_bytes())
}

/// Adds what a byte of a form stands for.
fn add_byte(text: &mut Text, byte: u8, place: u32) -> Result<(), NoMemory>
    requires { place < u32.MAX }
    ensures { OnOk result (text.new ≡ text.old ++ meaning place byte) }
{
    if byte == b'%' {
        return add_number(text, place);
    }
    if byte == b'+' {
        return add_number(text, place + 1);
    }
    text.extend(&[byte])
}

/// Adds a form filled for a place.
fn add_filled(text: &mut Text, form: &[u8], place: u32) -> Result<(), NoMemory>
    requires { place < u32.MAX }
    ensures { OnOk result (text.new ≡ text.old ++ filled form.now place) }
{
    for byte in form {
        add_byte(text, *byte, place)?;
    }
    Ok(())
}

/// Adds a form filled for each place.
pub fn add_each(text: &mut Text, form: &[u8], size: u32) -> Result<(), NoMemory>
    ensures { OnOk result (text.new ≡ text.old ++ for_each size form.now) }
{
    for place in 0..size {
        add_filled(text, form, place)?;
    }
    Ok(())
}
