//! The verdict on the first cell of a netlist, as the line that the program prints.

use crate::row::Row;
use crate::wholes::{NoCircuit, check, compared, inputs_of};
use row_script::Page;
use std::alloc::Global;
use vrt_model::{Seq, Text};
use witness::verdict_text;

/// The line of the first cell, where nothing is known of another.
fn line(alloc: Global, row: Row<'_>) -> Result<Text, NoCircuit> {
    let inputs = inputs_of(alloc, row)?;
    check(alloc, &inputs)?;
    if inputs.design.cells.len() < 1 {
        return Err(NoCircuit);
    }
    let found = compared(alloc, &inputs, 0, &Seq::new(alloc))?;
    let (circuit, model) = match &found.flattened {
        Some(flattened) => (Some(flattened.circuit()), Some(flattened.model())),
        None => (None, None),
    };
    let name = &inputs.design.cells.as_slice()[0].name;
    match verdict_text(alloc, name, &found.verdict, &inputs.rules, circuit, model) {
        Ok(line) => Ok(line),
        Err(_) => Err(NoCircuit),
    }
}

/// Tells the verdict on the first cell of a row.
pub(crate) fn tell(page: &mut Page, name: &str, row: Row<'_>) {
    page.word(name);
    page.word(": ");
    match line(page.alloc(), row) {
        Ok(line) => page.name(line.as_bytes()),
        Err(_) => page.word("no verdict"),
    }
    page.word("\n");
}
