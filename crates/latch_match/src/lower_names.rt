//! Names in lower case.

ghost use Rattle.std.specs.Prelude.{◌≡◌, bytes_eq};
ghost use Rattle.std.specs.Char.{to_ascii_lowercase};
ghost use Rattle.std.specs.Str.{str_to_ascii_lowercase};
ghost use Rattle.vrt_model.specs.Elements.{signal_name};

use vrt_model::FlatModel;

/// A byte with its letter lowered.
fn lowered(byte: u8) -> u8
    ensures { result ≡ to_ascii_lowercase byte }
{
    byte.to_ascii_lowercase()
}

/// Whether a name in lower case is another as it stands.
pub(crate) fn is_lowered(name: &[u8], other: &[u8]) -> bool
    ensures { result ≡ bytes_eq (str_to_ascii_lowercase name.now) other.now }
{
    let mut name_left = name;
    let mut other_left = other;
    'bytes: while let (Some((byte, name)), Some((wanted, other))) = (
        name_left.split_first(),
        other_left.split_first(),
    ) {
        if lowered(*byte) != *wanted {
            return false;
        }
        name_left = name;
        other_left = other;
    }
    name_left.is_empty() && other_left.is_empty()
}

/// The name of a signal, empty where there is none.
pub(crate) fn signal_name(flat: &FlatModel, signal: u32) -> &[u8]
    ensures { result.now ≡ signal_name flat.now signal }
{
    match flat.signals.get(signal as usize) {
        Some(name) => name.as_bytes(),
        None => &[],
    }
}
