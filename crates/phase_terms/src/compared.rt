//! What is compared.

use vrt_model::{Circuit, Design, FlatModel, Group, Pairing, Rules, Seq};
use whole_steps::WholeTable;

/// A circuit of a cell and a model of it, which are compared.
#[derive(Clone, Copy)]
pub struct Comparison<'a> {
    /// The netlist.
    pub design: &'a Design,
    /// The rules.
    pub rules: &'a Rules,
    /// The number of the cell.
    pub cell: u32,
    /// Which signals of the model the ports of the cell pair with.
    pub pairing: &'a Pairing,
    /// The circuit of the cell. Instances that are not left whole are unrolled.
    pub circuit: &'a Circuit,
    /// The outputs of the instances that are left whole, and the orders of their models.
    pub wholes: WholeTable<'a>,
    /// The model with all sub-models unrolled.
    pub model: &'a FlatModel,
    /// The groups of the circuit's holds.
    pub groups: &'a Seq<Group>,
}
