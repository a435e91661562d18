//! The fault of a phase told by names.

ghost use Rattle.std.specs.Prelude.{◌≡◌, ◌<◌, ◌≤◌, length, IfOk};
ghost use Rattle.bdd_core.specs.Store.{IsSpan};
ghost use Rattle.phase_terms.specs.Ready.{comparison_in};
ghost use Rattle.phase_told.specs.Sites.{IsSite};
ghost use Rattle.vrt_model.specs.Held.{sources_of, variable_names};
ghost use Rattle.vrt_model.specs.Places.{Finding, IsFirstInPhase};
ghost use Rattle.vrt_model.specs.Verdicts.{Describes};

use crate::bits::read_bits;
use crate::places::{copies_of, name_of_place};
use crate::site::{FoundFault, Site};
use bdd_core::Store;
use std::alloc::Global;
use vrt_model::{FaultAt, NoMemory, Vars};

/// The fault of a site by names, at the valuation that stands in its words, with the bits of the site. Want of memory is the only refusal.
pub fn name_fault(
    store: &Store,
    alloc: Global,
    found: FoundFault<'_>,
    vars: &Vars,
    site: Site,
) -> Result<FaultAt, NoMemory>
    requires cell { found.compared.cell < length found.compared.design.now.cells }
    requires sources { vars.now.sources ≡ sources_of (comparison_in found.compared) found.phase }
    requires names { vars.now.names ≡ variable_names (comparison_in found.compared) found.phase }
    requires words { IsSpan store.now found.fault.least }
    requires few { length (sources_of (comparison_in found.compared) found.phase) ≤ found.fault.least.len }
    requires site { IsSite (comparison_in found.compared) found.phase found.fault store.now site }
    ensures { IfOk result (λ told. (told.phase ≡ found.entry.phase) × ((f : Finding) × Describes (comparison_in found.entry.compared) told f × IsFirstInPhase (comparison_in found.entry.compared) f)) }
{
    let fault = found.fault;
    let valuation = read_bits(store, fault.least, vars.sources.len() as u32, alloc)?;
    let place = name_of_place(alloc, found.compared, fault.kind, fault.place)?;
    let names = copies_of(alloc, vars.names.as_slice())?;
    Ok(FaultAt {
        kind: site.kind,
        phase: found.phase,
        place,
        circuit: site.circuit,
        wanted: site.wanted,
        names,
        valuation,
    })
}
