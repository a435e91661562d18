//! Whether one instance passes the tests of its outputs and of cycles.

ghost use Rattle.std.specs.Prelude.{◌<◌, ℕ, List, All, IfOk, length};
ghost use Rattle.net_places.specs.Instances.{AreSmall};
ghost use Rattle.vrt_model.specs.Circuits.{IsHold};
ghost use Rattle.vrt_model.specs.Cut.{Cut, NumberedPlace};
ghost use Rattle.vrt_model.specs.declared.blif.Blif.{Blif as BlifValue};
ghost use Rattle.vrt_model.specs.declared.whole.CellFacts.{CellFacts as FactsValue};
ghost use Rattle.substitute.specs.Candidates.{IsCandidate};
ghost use Rattle.substitute.specs.Chosen.{IsRightly};

use crate::cycles::is_acyclic_with;
use crate::tables::Tables;
use crate::trial::marks_beside;
use std::alloc::Global;
use vrt_model::{NoMemory, WholePin};
use whole_circuits::{NetMarks, are_open};

/// Whether a candidate is rightly chosen: its output pins are allowed, and, where cycles are asked for, the circuit in which it
/// is whole too has none. The channels that are counted are those with it whole. Without a look at cycles it takes time in proportion to the square
/// of its outputs.
pub fn passes(
    alloc: Global,
    asked: bool,
    tables: Tables<'_>,
    whole: &[bool],
    at: usize,
    nets: &NetMarks,
    pins: &[WholePin],
) -> Result<bool, NoMemory>
    requires holds { All (IsHold tables.flat.now) tables.flat.now.holds }
    requires small { AreSmall tables.unrolled.now.places }
    requires there { at < length whole.now }
    requires candidate { (cut : Cut) × (blif : BlifValue) × (facts : List FactsValue) × (i : ℕ) × (p : NumberedPlace) × (m : ℕ) × IsCandidate asked cut blif facts i p m tables whole.now at nets.now pins.now }
    ensures { IfOk result (λ free. (cut : Cut) (blif : BlifValue) (facts : List FactsValue) (i : ℕ) (p : NumberedPlace) (m : ℕ) → IsCandidate asked cut blif facts i p m tables.entry whole.now at nets.now pins.now → IsRightly asked cut blif facts i free) }
{
    let allowed = are_open(tables.flat, nets, pins);
    if !allowed {
        return Ok(false);
    }
    if !asked {
        return Ok(true);
    }
    let marks = marks_beside(alloc, tables.unrolled, whole, at)?;
    let free = is_acyclic_with(alloc, tables, &marks)?;
    Ok(free)
}
