//! A cell whose instances may be left whole.

ghost use Rattle.std.specs.Prelude.{◌≡◌, Some};
ghost use Rattle.std.specs.Option.{option_copied};
ghost use Rattle.whole_circuits.specs.declared.whole_cell.WholeCell.{WholeCell as CellValue};
ghost use Rattle.vrt_model.specs.Lists.{At};

use net_places::Place;
use phase_ports::Port;
use port_links::PortLink;
use vrt_model::{ClockedSignal, Drive, FlatModel, Seq};

/// What the instances of a cell have in common where they are left whole.
pub struct WholeCell {
    /// The flat model of the cell.
    pub model: FlatModel,
    /// The signals of that model whose bits the phase gives.
    pub clocked: Seq<ClockedSignal>,
    /// The ports of the cell, with their nets in its own circuit.
    pub ports: Vec<Port>,
    /// Which nets of its own circuit are observed in the first phase.
    pub observed: Vec<bool>,
    /// How strongly its outputs drive, in the order of its output ports, as far as it is told.
    pub drives: Seq<Drive>,
    /// The links of its ports, for each phase.
    pub links: Seq<Seq<PortLink>>,
}

/// By hand, so that letting go of one is a call.
impl Drop for WholeCell {
    fn drop(self) {
        let WholeCell {
            model: _model,
            clocked: _clocked,
            ports: _ports,
            observed: _observed,
            drives: _drives,
            links: _links,
        } = self;
    }
}

/// What the instances of the cell at a place have in common, if they may be left whole.
pub(crate) fn cell_of<'a>(cells: &'a [Option<WholeCell>], place: &Place) -> Option<&'a WholeCell>
    ensures { (own : CellValue) → At cells.entry.now place.now.cell (Some own) → option_copied result ≡ Some own }
{
    match cells.get(place.cell) {
        Some(Some(own)) => Some(own),
        Some(None) => None,
        None => None,
    }
}
