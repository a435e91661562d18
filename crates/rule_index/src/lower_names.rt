//! Names in lower case.

ghost use Rattle.std.specs.Prelude.{◌≡◌, IfOk};
ghost use Rattle.std.specs.Char.{to_ascii_lowercase};
ghost use Rattle.std.specs.Str.{str_to_ascii_lowercase};

use std::alloc::Global;
use vrt_model::{NoMemory, Text};

/// A byte with its letter lowered.
fn lowered(byte: u8) -> u8
    ensures { result ≡ to_ascii_lowercase byte }
{
    byte.to_ascii_lowercase()
}

/// A name in lower case, its bytes of ASCII letters lowered. Want of memory is the only refusal.
pub fn lowered_name(alloc: Global, name: &[u8]) -> Result<Text, NoMemory>
    ensures { IfOk result (λ low. low ≡ str_to_ascii_lowercase name.now) }
{
    let mut low = Text::new(alloc);
    for byte in name {
        if low.push(lowered(*byte)).is_err() {
            return Err(NoMemory);
        }
    }
    Ok(low)
}
