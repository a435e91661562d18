//! What is told of an equal cell.

ghost use Rattle.std.specs.Prelude.{◌≡◌, ◌≢◌, ◌≤◌, ◌∷◌, [], ℕ, IfOk, false, true};
ghost use Rattle.cell_room.specs.Compared.{AreInputs};
ghost use Rattle.cell_writer.specs.declared.refusal.WriteRefusal.TheVariants.{NoMemory as IsNoMemory};
ghost use Rattle.prepared_tables.specs.Prepared.{ArePrepared};
ghost use Rattle.vrt_model.specs.Comparison.{cell_at};
ghost use Rattle.vrt_model.specs.Equal.{IsEqual};
ghost use Rattle.vrt_model.specs.Unsupported.{IsSupported, comparison_of};
ghost use Rattle.written_lines.specs.Lines.{lines_in, refusal_line};
ghost use Rattle.written_lines.specs.Told.{IsTold};

use crate::cuts::lines_in;
use crate::refusals::refusal_line;
use cell_writer::{WriteRefusal, write_model_with};
use prepared_tables::Prepared;
use std::alloc::Global;
use vrt_model::{Blif, Design, NoMemory, Rules, Seq, Text};

/// The lines of what is told.
pub struct WrittenLines {
    /// Whether they are those of a model.
    pub written: bool,
    /// The lines, each with its line feed.
    pub lines: Seq<Text>,
}

/// By hand, so that letting go of one is a call.
impl Drop for WrittenLines {
    fn drop(self) {
        let WrittenLines {
            written: _written,
            lines: _lines,
        } = self;
    }
}

impl WrittenLines {
    /// The lines.
    pub fn into_lines(self) -> Seq<Text>
        ensures { result ≡ self.lines }
    {
        let WrittenLines {
            written: _written,
            lines,
        } = self;
        lines
    }
}

/// The name of a cell, empty where there is no such cell.
fn name_of(design: &Design, cell: u32) -> &[u8]
    ensures { result.now ≡ (cell_at design.entry.now cell).name }
{
    match design.cells.get(cell as usize) {
        Some(cell) => cell.name.as_bytes(),
        None => &[],
    }
}

/// A text, line by line.
fn text_told(alloc: Global, text: &Text) -> Result<WrittenLines, NoMemory>
    ensures { IfOk result (λ t. (t.written ≡ true) × (t.lines ≡ lines_in text.now)) }
{
    let lines = lines_in(alloc, text.as_bytes())?;
    Ok(WrittenLines {
        written: true,
        lines,
    })
}

/// The one line of a refusal; want of memory has none.
fn refusal_told(
    alloc: Global,
    cell: &[u8],
    refusal: &WriteRefusal,
) -> Result<WrittenLines, NoMemory>
    ensures told { IfOk result (λ t. (t.written ≡ false) × (t.lines ≡ refusal_line cell.now refusal.now ∷ [])) }
    ensures had { IfOk result (λ _. refusal.now ≢ IsNoMemory) }
{
    let line = refusal_line(alloc, cell, refusal)?;
    let mut lines = Seq::new(alloc);
    lines.append(line)?;
    Ok(WrittenLines {
        written: false,
        lines,
    })
}

/// The lines of an equal cell in whose way nothing stands, written as a BLIF model, or the one line of what refuses it. Want of memory is the only
/// refusal.
pub fn written_lines(
    alloc: Global,
    budget: u32,
    prepared: &Prepared,
    design: &Design,
    blif: &Blif,
    rules: &Rules,
    cell: u32,
) -> Result<WrittenLines, NoMemory>
    requires budget { (65536 ≤ budget) × (budget ≤ 64000000) }
    requires prepared { ArePrepared design.now blif.now rules.now prepared.now }
    requires inputs { AreInputs design.now blif.now rules.now cell }
    requires equal { (m : ℕ) × IsSupported design.now blif.now rules.now cell m × IsEqual (comparison_of design.now blif.now rules.now cell m) }
    ensures { IfOk result (λ t. (m : ℕ) → IsSupported design.now blif.now rules.now cell m → IsTold design.now blif.now rules.now budget cell m t.written t.lines) }
{
    match write_model_with(alloc, budget, prepared, design, blif, rules, cell) {
        Ok(text) => text_told(alloc, &text),
        Err(refusal) => refusal_told(alloc, name_of(design, cell), &refusal),
    }
}
