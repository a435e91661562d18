//! What is made of a cell before its instances are tried.

use net_places::Unrolled;
use vrt_model::{Circuit, Phase};
use whole_circuits::WholeCell;

/// A cell unrolled, and what the instances of each cell in it have in common.
#[derive(Clone, Copy)]
pub struct Tables<'a> {
    /// The phases of the rules.
    pub phases: &'a [Phase],
    /// The flat circuit of the cell, in which no instance is whole.
    pub flat: &'a Circuit,
    /// The places of the cell and its instances.
    pub unrolled: &'a Unrolled,
    /// For each device of the flat circuit the number of its place.
    pub owners: &'a [usize],
    /// For each cell of the netlist what its instances have in common, if they may be left whole.
    pub cells: &'a [Option<WholeCell>],
}
