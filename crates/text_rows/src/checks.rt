//! Checks of models.

ghost use Rattle.blif_checks.specs.Tables.{AreTables};
ghost use Rattle.vrt_model.specs.Inputs.{IsBlif};

use blif_flat::{
    ModelFault, Tables, are_shallow, check_drivers, check_models, check_nesting, check_subs,
    tables_of,
};
use row_script::Page;
use vrt_model::Blif;

/// The name that a fault has.
fn name_of(fault: &ModelFault) -> &[u8] {
    match fault {
        ModelFault::UnknownModel { name, .. } => name.as_bytes(),
        ModelFault::Formals { name, .. } => name.as_bytes(),
        ModelFault::Recursion { name, .. } => name.as_bytes(),
        ModelFault::DrivenTwice { name, .. } => name.as_bytes(),
        ModelFault::Undriven { name, .. } => name.as_bytes(),
        _ => &[],
    }
}

/// Tells why models are refused.
fn tell_fault(page: &mut Page, fault: &ModelFault) {
    page.fault(fault, name_of(fault));
    if let ModelFault::Depth { depth, .. } = fault {
        page.word(": ");
        page.number(*depth);
    }
}

/// Tells what a check answers.
fn tell_outcome(page: &mut Page, checked: Result<(), ModelFault>) {
    match checked {
        Ok(()) => page.word("taken"),
        Err(fault) => tell_fault(page, &fault),
    }
}

/// Tells whether models are shallow.
fn tell_depth(page: &mut Page, blif: &Blif, tables: &Tables)
    requires { AreTables blif.now tables.now }
{
    match are_shallow(page.alloc(), blif, tables) {
        Ok(is_shallow) => {
            page.word("shallow ");
            page.bit(is_shallow);
        }
        Err(_) => page.word("memory"),
    }
}

/// Tells what a check answers of models and their tables. Of `depth` nothing is told of the fault.
fn answer(page: &mut Page, check: &str, blif: &Blif, tables: &Tables)
    requires blif { IsBlif blif.now }
    requires tables { AreTables blif.now tables.now }
{
    let alloc = page.alloc();
    match check {
        "models" => tell_outcome(page, check_models(alloc, blif)),
        "subs" => tell_outcome(page, check_subs(alloc, blif, tables)),
        "nesting" => tell_outcome(page, check_nesting(alloc, blif, tables)),
        "depth" => tell_depth(page, blif, tables),
        "drivers" => tell_outcome(page, check_drivers(alloc, blif, tables)),
        _ => page.word("no such check"),
    }
}

/// Tells what checks answer, one behind the other with a comma between two.
fn answer_all(page: &mut Page, checks: &str, blif: &Blif, tables: &Tables)
    requires blif { IsBlif blif.now }
    requires tables { AreTables blif.now tables.now }
{
    let mut is_behind = false;
    for check in checks.split(',') {
        if is_behind {
            page.word(", ");
        }
        answer(page, check, blif, tables);
        is_behind = true;
    }
}

/// Tells what checks answer of models: `models` for all of them, `subs`, `nesting`, `depth` or `drivers`, with a comma between two.
pub(crate) fn tell(page: &mut Page, checks: &str, blif: &Blif)
    requires { IsBlif blif.now }
{
    match tables_of(page.alloc(), blif) {
        Ok(tables) => answer_all(page, checks, blif, &tables),
        Err(_) => page.word("memory"),
    }
}
