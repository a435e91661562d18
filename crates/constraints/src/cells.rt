//! What a design and its rules say of a cell and a phase.

ghost use Rattle.std.specs.Prelude.{◌≡◌};
ghost use Rattle.constraints.specs.Obliged.{phase_bits};
ghost use Rattle.vrt_model.specs.Comparison.{cell_at};

use vrt_model::{Design, Rules, Text};

/// The bits of the clocks in a phase, none where there is no such phase.
pub(crate) fn phase_bits(rules: &Rules, phase: u32) -> &[bool]
    ensures { result.now ≡ phase_bits rules.now phase }
{
    match rules.phases.get(phase as usize) {
        Some(phase) => phase.bits.as_slice(),
        None => &[],
    }
}

/// The name of a cell, empty where there is none.
pub(crate) fn cell_name(design: &Design, cell: u32) -> &[u8]
    ensures { result.now ≡ (cell_at design.now cell).name }
{
    match design.cells.get(cell as usize) {
        Some(cell) => cell.name.as_bytes(),
        None => &[],
    }
}

/// The ports of a cell, none where there is no such cell.
pub(crate) fn cell_ports(design: &Design, cell: u32) -> &[Text]
    ensures { result.now ≡ (cell_at design.now cell).ports }
{
    match design.cells.get(cell as usize) {
        Some(cell) => cell.ports.as_slice(),
        None => &[],
    }
}
