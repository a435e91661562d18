//! Netlists.

use crate::MOST_BYTES;
use row_script::Page;
use spice_reader::{SpiceFault, read_spice};
use std::alloc::Global;
use vrt_model::{Cell, Design};

/// How many ports, transistors and instances the first cell has.
fn first_sizes(cells: &[Cell]) -> (usize, usize, usize) {
    match cells.first() {
        Some(cell) => (cell.ports.len(), cell.devices.len(), cell.instances.len()),
        None => (0, 0, 0),
    }
}

/// Tells what a netlist has.
fn tell_counts(page: &mut Page, design: &Design) {
    let (ports, devices, instances) = first_sizes(design.cells.as_slice());
    page.count(design.cells.len(), " cells, ");
    page.count(ports, " ports, ");
    page.count(devices, " transistors and ");
    page.count(instances, " instances in the first, ");
    page.count(design.globals.len(), " globals, ");
    page.count(design.models.len(), " models");
}

/// The word or the name that a fault has.
fn name_of(fault: &SpiceFault) -> &[u8] {
    match fault {
        SpiceFault::Unsupported { word, .. } => word.as_bytes(),
        SpiceFault::CellTwice { name, .. } => name.as_bytes(),
        SpiceFault::ElementTwice { name, .. } => name.as_bytes(),
        SpiceFault::PortTwice { name, .. } => name.as_bytes(),
        _ => &[],
    }
}

/// Tells what a netlist has, or why it is refused.
pub(crate) fn tell(page: &mut Page, text: &[u8]) {
    if text.len() > MOST_BYTES {
        return page.word("too many bytes");
    }
    match read_spice(page.alloc(), text) {
        Ok(design) => tell_counts(page, &design),
        Err(fault) => page.fault(&fault, name_of(&fault)),
    }
}

/// Whether a netlist is read and has no more cells than so many, or is refused for another cause than want of memory.
pub(crate) fn is_answered(alloc: Global, text: &[u8], most: usize) -> bool {
    if text.len() > MOST_BYTES {
        return false;
    }
    match read_spice(alloc, text) {
        Ok(design) => design.cells.len() <= most,
        Err(SpiceFault::NoMemory) => false,
        Err(_) => true,
    }
}
