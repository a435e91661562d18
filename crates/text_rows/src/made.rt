//! The texts that are made, as they are.

use generator::generate;
use row_script::Page;

/// Tells the netlist, the models and the rules of a size, one behind the other.
pub(crate) fn tell(page: &mut Page, size: u32) {
    if size < 1 || size > 32 {
        return page.word("no such size");
    }
    match generate(page.alloc(), size) {
        Ok(made) => {
            page.name(made.spice.as_bytes());
            page.name(made.blif.as_bytes());
            page.name(made.rules.as_bytes());
        }
        Err(_) => page.word("memory"),
    }
}
