//! Where a fault stands, by numbers.

ghost use Rattle.std.specs.Prelude.{◌≡◌, ℕ, ◌≤◌, length, slice_index};
ghost use Rattle.bdd_core.specs.Words.{IsBeside};
ghost use Rattle.phase_terms.specs.Found.{IsPhaseFault};
ghost use Rattle.phase_terms.specs.Ready.{IsReady, comparison_in};
ghost use Rattle.phase_told.specs.Sites.{IsSite, site_of};
ghost use Rattle.vrt_model.specs.Held.{sources_of};

use crate::ports::net_of_port;
use crate::values::values_in;
use bdd_core::Store;
use bdd_ops::least;
use phase_terms::{Comparison, PhaseFault};
use vrt_model::FaultKind;

/// A fault that is found in a phase of a comparison.
#[derive(Clone, Copy)]
pub struct FoundFault<'a> {
    /// What is compared.
    pub compared: Comparison<'a>,
    /// The phase, by its number.
    pub phase: u32,
    /// The first fault of the phase, by handles of its store.
    pub fault: PhaseFault,
}

/// Where the first fault of a phase stands, by numbers of the circuit, and the bits that are there at the least valuation.
#[derive(Clone, Copy)]
pub struct Site {
    /// What stands there.
    pub kind: FaultKind,
    /// The number of the net, for `Differs` of the net of the port; for `Constraint` the place of the instance in `Circuit.instances`.
    pub at: u32,
    /// The bit that the circuit has there; none for a kind that is printed without values.
    pub circuit: Option<bool>,
    /// The bit that it ought to have, for `Differs` that of the model; none where `circuit` is none.
    pub wanted: Option<bool>,
}

/// The number by which a site tells the place of a fault.
fn number_of(compared: Comparison<'_>, kind: FaultKind, place: u32) -> u32
    requires { IsReady (comparison_in compared) }
    ensures { result ≡ site_of (comparison_in compared.entry) kind place }
{
    match kind {
        FaultKind::Differs => net_of_port(compared.pairing.ports.as_slice(), place),
        _ => place,
    }
}

/// The site of the first fault of a phase. The least valuation at which the fault stands is written into the words of the fault, of
/// which there is one for each variable of the store: 1 where the bit is 1. No memory is taken, no node is added, and no other word
/// changes.
pub fn find_site(store: &mut Store, found: FoundFault<'_>) -> Site
    requires ready { IsReady (comparison_in found.compared) }
    requires few { length (sources_of (comparison_in found.compared) found.phase) ≤ store.old.vars }
    requires fault { IsPhaseFault (comparison_in found.compared) found.phase found.fault store.old }
    ensures site { IsSite (comparison_in found.entry.compared) found.entry.phase found.entry.fault store.new result }
    ensures rest { store.new ≡ record store.old { words = store.new.words } }
    ensures len { length store.new.words ≡ length store.old.words }
    ensures others { (j : ℕ) → IsBeside found.entry.fault.least j → slice_index store.new.words j ≡ slice_index store.old.words j }
{
    let fault = found.fault;
    let _stands = least(store, fault.at, fault.least);
    let (circuit, wanted) = values_in(store, fault);
    let at = number_of(found.compared, fault.kind, fault.place);
    Site {
        kind: fault.kind,
        at,
        circuit,
        wanted,
    }
}
