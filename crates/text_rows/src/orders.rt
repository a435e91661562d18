//! The order of cells in cells.

ghost use Rattle.vrt_model.specs.Inputs.{IsDesign};

use hierarchy::{HierFault, order};
use row_script::Page;
use vrt_model::{Design, Rules};

/// Tells the name of a cell.
fn tell_cell(page: &mut Page, design: &Design, number: u32) {
    match design.cells.get(number as usize) {
        Some(cell) => page.name(cell.name.as_bytes()),
        None => page.word("?"),
    }
}

/// Tells the names of cells, with a blank before each.
fn tell_cells(page: &mut Page, design: &Design, numbers: &[u32]) {
    for number in numbers {
        page.word(" ");
        tell_cell(page, design, *number);
    }
}

/// Tells why cells have no order.
fn tell_fault(page: &mut Page, design: &Design, fault: &HierFault) {
    match fault {
        HierFault::UnknownCell { name, .. } => page.fault(fault, name.as_bytes()),
        HierFault::NoSuchName { name, .. } => page.fault(fault, name.as_bytes()),
        HierFault::Recursion { chain, .. } => {
            page.fault(fault, b"chain");
            tell_cells(page, design, chain.as_slice());
        }
        HierFault::Depth { depth, .. } => {
            page.display(fault);
            page.word(":");
            page.behind_blank(*depth);
        }
        _ => page.display(fault),
    }
}

/// Tells the cells in their order, or why they have none.
pub(crate) fn tell(page: &mut Page, design: &Design, rules: &Rules)
    requires { IsDesign design.now }
{
    match order(page.alloc(), design, rules) {
        Ok(cells) => {
            page.word("cells");
            tell_cells(page, design, cells.as_slice());
        }
        Err(fault) => tell_fault(page, design, &fault),
    }
}
