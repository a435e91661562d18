//! A source of files by name.

ghost use Rattle.std.specs.Prelude.{◌≡◌, ◌≢◌, Some, ◌≤◌, ℕ, List, [], length, ⊤};
ghost use Rattle.std.specs.declared.option.Option.{Option};
ghost use Rattle.vrt_io.specs.Loads.{LoadGives};

use std::alloc::Global;

/// The greatest length of a file that is read, in bytes.
pub const MAX_FILE_LEN: usize = 16_777_216;

/// How a load ended.
#[derive(Clone, Copy, Debug)]
pub enum Loaded {
    /// The whole file was read.
    Done,
    /// The source failed.
    Failed,
    /// The file has more than `MAX_FILE_LEN` bytes, of which so many were read: one more than that.
    TooLong { taken: u64 },
    /// Memory was wanting.
    NoMemory,
}

/// A source of files by name.
pub trait Files {
    /// The bytes of the file of a name, where they are told.
    ghost told: { Self → List ℕ → Option (List ℕ) };

    /// How often the source has failed, up to the greatest `u64`.
    ghost faults: { Self → ℕ };

    /// That a load of a name gave these bytes.
    ghost gave: { Self → List ℕ → List ℕ → Type 0 } = { λ _ _ _. ⊤ };

    /// That a load of a name failed.
    ghost failed: { Self → List ℕ → Type 0 } = { λ _ _. ⊤ };

    /// Reads a whole file into an empty vector, which is empty again after each answer but `Done`.
    fn load(&mut self, alloc: Global, name: &str, into: &mut Vec<u8>) -> Loaded
        requires { into.old.items ≡ [] }
        ensures gives { LoadGives result (told self.old name.now) (faults self.old) (faults self.new) into.new.items }
        // No file changes, and the count of faults never falls.
        ensures same { (n : List ℕ) → told self.new n ≡ told self.old n }
        ensures later { faults self.old ≤ faults self.new }
        // What was given, and what failed, is known from then on.
        ensures given { result ≡ Loaded.Done → gave self.new name.now into.new.items }
        ensures missed { result ≡ Loaded.Failed → failed self.new name.now }
        ensures kept { (n bytes : List ℕ) → gave self.old n bytes → gave self.new n bytes };
}

/// Copies a file, if it is not too long.
pub(crate) fn copy_file(file: &[u8], into: &mut Vec<u8>) -> Loaded
    requires { into.old.items ≡ [] }
    ensures gives { (now : ℕ) → LoadGives result (Some file.now) now now into.new.items }
    ensures sure { result ≢ Loaded.Failed }
{
    if file.len() > MAX_FILE_LEN {
        return Loaded::TooLong {
            taken: MAX_FILE_LEN as u64 + 1,
        };
    }
    match into.extend_from_slice(file) {
        Ok(()) => Loaded::Done,
        Err(_) => Loaded::NoMemory,
    }
}
