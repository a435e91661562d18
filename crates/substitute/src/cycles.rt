//! Whether the arcs lead around where an instance is whole too.

ghost use Rattle.std.specs.Prelude.{◌≡◌, ◌↔◌, List, true, All, IfOk};
ghost use Rattle.net_places.specs.Instances.{AreSmall};
ghost use Rattle.whole_circuits.specs.Acyclic.{AreAcyclic};
ghost use Rattle.vrt_model.specs.Checked.{IsCircuitWith};
ghost use Rattle.vrt_model.specs.Circuits.{IsHold};
ghost use Rattle.vrt_model.specs.Cut.{Cut};
ghost use Rattle.vrt_model.specs.declared.blif.Blif.{Blif as BlifValue};
ghost use Rattle.vrt_model.specs.declared.circuit.Circuit.{Circuit as CircuitValue};
ghost use Rattle.vrt_model.specs.declared.whole.CellFacts.{CellFacts as FactsValue};
ghost use Rattle.substitute.specs.Cycles.{IsTriedBy, IsTriedSoundly};

use crate::tables::Tables;
use std::alloc::Global;
use vrt_model::{Circuit, NoMemory};
use whole_circuits::{Marks, are_acyclic, circuit_with};

/// The circuit in which the instances with marks are whole.
pub(crate) fn circuit_by(
    alloc: Global,
    tables: Tables<'_>,
    marks: &Marks,
) -> Result<Circuit, NoMemory>
    requires holds { All (IsHold tables.flat.now) tables.flat.now.holds }
    requires small { AreSmall tables.unrolled.now.places }
    ensures { IfOk result (λ circuit. (cut : Cut) (blif : BlifValue) (facts : List FactsValue) → IsTriedBy cut blif facts tables.entry marks.now → IsCircuitWith cut blif facts circuit) }
{
    let Tables {
        phases,
        flat,
        unrolled,
        owners,
        cells,
    } = tables;
    circuit_with(alloc, phases, flat, unrolled, owners, cells, marks)
}

/// Whether the arcs of the circuit in which the instances with marks are whole have no cycle in any phase. The circuit is made
/// for that, in time and memory in proportion to the flat circuit.
pub fn is_acyclic_with(alloc: Global, tables: Tables<'_>, marks: &Marks) -> Result<bool, NoMemory>
    requires holds { All (IsHold tables.flat.now) tables.flat.now.holds }
    requires small { AreSmall tables.unrolled.now.places }
    requires tried { (cut : Cut) × (blif : BlifValue) × (facts : List FactsValue) × IsTriedSoundly cut blif facts tables marks.now }
    ensures { IfOk result (λ free. (cut : Cut) (blif : BlifValue) (facts : List FactsValue) → IsTriedBy cut blif facts tables.entry marks.now → (circuit : CircuitValue) × IsCircuitWith cut blif facts circuit × ((free ≡ true) ↔ AreAcyclic circuit tables.entry.phases.now)) }
{
    let circuit = circuit_by(alloc, tables, marks)?;
    let free = are_acyclic(alloc, &circuit, tables.phases)?;
    Ok(free)
}
