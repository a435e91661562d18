//! A cell in a phase, at whose valuations it is looked.

use vrt_model::{Circuit, Design, Group, Rules, Seq, Source};

/// A cell in a phase, and what its variables stand for.
#[derive(Clone, Copy)]
pub struct CellPhase<'a> {
    /// The netlist.
    pub design: &'a Design,
    /// The rules.
    pub rules: &'a Rules,
    /// The number of the cell.
    pub cell: u32,
    /// The circuit of the cell with all instances unrolled.
    pub circuit: &'a Circuit,
    /// The groups of the circuit's holds.
    pub groups: &'a Seq<Group>,
    /// What each variable stands for.
    pub sources: &'a Seq<Source>,
    /// The number of the phase.
    pub phase: u32,
}
