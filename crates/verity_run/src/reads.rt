//! The three loads.

ghost use Rattle.std.specs.Prelude.{◌≡◌, ◌≤◌, vec_len, List, ℕ, IfOk, IfErr};
ghost use Rattle.verity_run.specs.Given.{bytes_in, names_in};
ghost use Rattle.verity_run.specs.Reads.{AreLoaded, AreShort, IsLoaded, IsShort, StopHasCause, StopsBy, source_of};

use command_line::FileWords;
use std::alloc::Global;
use vrt_io::{Files, Loaded};

/// Why a file was not read.
#[derive(Clone, Copy)]
pub enum Stop {
    /// The source of files failed: `verity: FILE: read failed`.
    Failed,
    /// It has more than 16,777,216 bytes: `verity: FILE line 0: longer than 16777216 bytes`.
    TooLong,
    /// Memory could not be had. No line is printed.
    NoMemory,
}

/// The file that was not read, and why.
#[derive(Clone, Copy)]
pub struct Stopped<'a> {
    /// The name of the file as on the command line.
    pub name: &'a str,
    /// What stood in the way.
    pub stop: Stop,
}

/// The bytes of the three files.
pub struct Texts {
    /// The netlist, at most 16,777,216 bytes.
    pub spice: Vec<u8>,
    /// The models, at most 16,777,216 bytes.
    pub blif: Vec<u8>,
    /// The rules, at most 16,777,216 bytes.
    pub rules: Vec<u8>,
}

/// By hand, so that letting go of one is a call.
impl Drop for Texts {
    fn drop(self) {
        let Texts {
            spice: _spice,
            blif: _blif,
            rules: _rules,
        } = self;
    }
}

/// Reads a file.
fn read_file<'a, F: Files>(
    alloc: Global,
    files: &mut F,
    name: &'a str,
) -> Result<Vec<u8>, Stopped<'a>>
    ensures ok { IfOk result (λ v. IsLoaded (source_of (F.told files.old) (F.gave files.new) (F.failed files.new)) name.now v.items) }
    ensures few { IfOk result (λ _. IsShort (F.told files.old name.now)) }
    ensures err { IfErr result (λ s. (s.name.now ≡ name.now)
        × StopHasCause s.stop (source_of (F.told files.old) (F.gave files.new) (F.failed files.new)) name.now (F.faults files.old) (F.faults files.new)) }
    ensures short { IfOk result (λ v. vec_len v ≤ 16777216) }
    ensures same { (n : List ℕ) → F.told files.new n ≡ F.told files.old n }
    ensures kept { (n bytes : List ℕ) → F.gave files.old n bytes → F.gave files.new n bytes }
    ensures later { F.faults files.old ≤ F.faults files.new }
{
    let mut bytes = Vec::new(alloc);
    match files.load(alloc, name, &mut bytes) {
        Loaded::Done => Ok(bytes),
        Loaded::Failed => Err(Stopped {
            name,
            stop: Stop::Failed,
        }),
        Loaded::TooLong { .. } => Err(Stopped {
            name,
            stop: Stop::TooLong,
        }),
        Loaded::NoMemory => Err(Stopped {
            name,
            stop: Stop::NoMemory,
        }),
    }
}

/// Reads the three files in order, up to the first that is not read.
pub fn read_files<'a, F: Files>(
    alloc: Global,
    files: &mut F,
    words: &FileWords<'a>,
) -> Result<Texts, Stopped<'a>>
    ensures ok { IfOk result (λ t. AreLoaded (source_of (F.told files.old) (F.gave files.new) (F.failed files.new)) (names_in words.now) (bytes_in t)) }
    ensures err { IfErr result (λ s. StopsBy s.stop s.name.now (source_of (F.told files.old) (F.gave files.new) (F.failed files.new)) (names_in words.now) (F.faults files.old) (F.faults files.new)) }
    ensures short { IfOk result AreShort }
    ensures later { F.faults files.old ≤ F.faults files.new }
{
    let spice = read_file(alloc, files, words.spice)?;
    let blif = read_file(alloc, files, words.blif)?;
    let rules = read_file(alloc, files, words.rules)?;
    Ok(Texts { spice, blif, rules })
}
