//! The lines that a run writes beside the verdicts.

ghost use Rattle.std.specs.Prelude.{◌≡◌, [], codes, IfOk};
ghost use Rattle.generator.specs.Texts.{IsSize};
ghost use Rattle.verity_run.specs.Messages.{last_line, no_name_line, read_failed_line, too_long_line, usage_line, words_line};

mod cells;

pub use cells::cells_refusal;
use mode_lines::generated_line;
use refusal_lines::{join, refusal};
pub use refusal_lines::{
    blif_refusal, models_refusal, rules_refusal, spice_refusal, verilog_refusal,
};
use std::alloc::Global;
use vrt_model::{NoMemory, Text};

/// The line for words that are not understood.
pub fn usage() -> &'static [u8]
    ensures { result.now ≡ usage_line }
{
    b"verity: usage: verity [--do MODE] [--cell C] [--phase P] [--at LIST] [--budget N] [--size N] [--rise LIST] [SPICE BLIF RULES]\n"
}

/// The line for a file that was not read.
pub fn read_failed(alloc: Global, file: &[u8]) -> Result<Text, NoMemory>
    ensures { IfOk result (λ text. text ≡ read_failed_line file.now) }
{
    join(
        alloc,
        &[b"verity: ".as_slice(), file, b": read failed\n".as_slice()],
    )
}

/// The line for a file that has too many bytes.
pub fn too_long(alloc: Global, file: &[u8]) -> Result<Text, NoMemory>
    ensures { IfOk result (λ text. text ≡ too_long_line file.now) }
{
    refusal(alloc, file, 0, b"longer than 16777216 bytes", b"")
}

/// The line for what the words name.
fn of_words(alloc: Global, cause: &[u8], name: &[u8]) -> Result<Text, NoMemory>
    ensures { IfOk result (λ text. text ≡ words_line cause.now name.now) }
{
    refusal(alloc, b"words", 0, cause, name)
}

/// The line for a list that has another form.
pub fn no_form(alloc: Global) -> Result<Text, NoMemory>
    ensures { IfOk result (λ text. text ≡ words_line (codes "list does not fit") []) }
{
    of_words(alloc, b"list does not fit", b"")
}

/// The line for a name that a list has twice.
pub fn twice(alloc: Global, name: &[u8]) -> Result<Text, NoMemory>
    ensures { IfOk result (λ text. text ≡ words_line (codes "given twice: ") name.now) }
{
    of_words(alloc, b"given twice: ", name)
}

/// The line for a name in the words that is not there.
pub fn no_name(alloc: Global, name: &[u8]) -> Result<Text, NoMemory>
    ensures { IfOk result (λ text. text ≡ no_name_line name.now) }
{
    of_words(alloc, b"no such name: ", name)
}

/// The last line where the texts are generated.
pub fn generated(alloc: Global, size: u32) -> Result<Text, NoMemory>
    requires { IsSize size }
    ensures { IfOk result (λ text. text ≡ last_line size) }
{
    generated_line(alloc, size, u64::from(42 * size), u64::from(2 * size + 2))
}
