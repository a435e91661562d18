//! All that is made of a cell before its phases are looked through.

ghost use Rattle.std.specs.Prelude.{◌≡◌, ℕ, IfOk};
ghost use Rattle.cell_room.specs.Compared.{AreInputs, comparison};
ghost use Rattle.cell_room.specs.Made.{IsMade, circuit_in, made_from, searched};
ghost use Rattle.cell_room.specs.Planned.{IsPlannedCell};
ghost use Rattle.checked_cells.specs.Given.{AreTrueFacts, IsCheckedOf};
ghost use Rattle.phase_terms.specs.Ready.{comparison_in};
ghost use Rattle.prepared_tables.specs.Prepared.{ArePrepared};
ghost use Rattle.whole_cells.specs.Kept.{AreKept};
ghost use Rattle.whole_steps.specs.Tables.{IsWholeTable};

use crate::checked::{Searched, searched_of};
use crate::comparison::flat_comparison;
use crate::flattened::Flattened;
use crate::lone::{Outputs, outputs_of};
use crate::planned::{Planned, phases_of};
use blif_eval::ModelPlan;
use phase_terms::{Comparison, PhasePlan, WordCounts};
use prepared_tables::Prepared;
use std::alloc::Global;
use vrt_model::{Blif, CellFacts, Circuit, Design, Net, NoMemory, Rules, Seq, Vars};
use whole_cells::KeptCells;
use whole_steps::{OutputPlace, WholeTable};

/// All that is made of a cell before its phases are looked through.
pub struct Made {
    /// The flat circuit and the flat model, their pairing, and the groups of the holds.
    pub flattened: Flattened,
    /// The checked circuit, which is looked through; none where it is the flat one.
    pub checked: Option<Circuit>,
    /// For each net of the checked circuit the last of the outputs of whole instances at it.
    pub drivers: Vec<Option<OutputPlace>>,
    /// The orders of the models of whole instances.
    pub orders: Seq<ModelPlan>,
    /// The variables of each phase.
    pub vars: Seq<Vars>,
    /// The plan of each phase, over the checked circuit.
    pub plans: Seq<PhasePlan>,
    /// How many words a phase takes, by kind.
    pub counts: WordCounts,
    /// The nets of the output ports, in port order.
    pub outputs: Seq<Net>,
    /// For each output port whether it is alone inside the flat circuit in every phase.
    pub lone: Vec<bool>,
}

/// By hand, so that its parts may come out of it.
impl Drop for Made {
    fn drop(self) {
        let Made {
            flattened: _flattened,
            checked: _checked,
            drivers: _drivers,
            orders: _orders,
            vars: _vars,
            plans: _plans,
            counts: _counts,
            outputs: _outputs,
            lone: _lone,
        } = self;
    }
}

impl Made {
    /// The circuit that is looked through.
    pub fn circuit(&self) -> &Circuit
        ensures { result.now ≡ circuit_in self.entry.now }
    {
        match &self.checked {
            Some(circuit) => circuit,
            None => self.flattened.circuit(),
        }
    }

    /// What is compared, over the circuit that is looked through.
    pub fn compared<'a>(&'a self, design: &'a Design, rules: &'a Rules, cell: u32) -> Comparison<'a>
        requires wholes { IsWholeTable (circuit_in self.now) self.now.drivers.items self.now.orders }
        ensures is { comparison_in result ≡ searched design.entry.now rules.entry.now cell self.entry.now }
        ensures wholes { IsWholeTable result.circuit.now result.wholes.drivers.now result.wholes.plans.now }
    {
        Comparison {
            design,
            rules,
            cell,
            pairing: self.flattened.pairing(),
            circuit: self.circuit(),
            wholes: WholeTable {
                drivers: self.drivers.as_slice(),
                plans: self.orders.as_slice(),
            },
            model: self.flattened.model(),
            groups: self.flattened.groups(),
        }
    }

    /// The flat circuit and the flat model, of which nothing else is kept.
    pub fn into_flattened(self) -> Flattened
        ensures { result ≡ self.flattened }
    {
        let Made {
            flattened,
            checked: _checked,
            drivers: _drivers,
            orders: _orders,
            vars: _vars,
            plans: _plans,
            counts: _counts,
            outputs: _outputs,
            lone: _lone,
        } = self;
        flattened
    }
}

/// A planned cell with the circuit that is looked through and its output ports.
fn made_with(planned: Planned, searched: Searched, outputs: Outputs) -> Made
    ensures { result ≡ made_from planned searched outputs }
{
    let Planned {
        unrolled: _unrolled,
        flattened,
        vars,
        plans,
    } = planned;
    let Searched {
        checked,
        drivers,
        orders,
        plans: own,
        counts,
    } = searched;
    let Outputs {
        nets: outputs,
        lone,
    } = outputs;
    let plans = match own {
        Some(own) => own,
        None => plans,
    };
    Made {
        flattened,
        checked,
        drivers,
        orders,
        vars,
        plans,
        counts,
        outputs,
        lone,
    }
}

/// All that is made of a planned cell before its phases are looked through, by what is known of the cells below it. What the instances of
/// cells have in common is taken from what is kept, and made and kept where it is wanting.
pub fn make(
    alloc: Global,
    prepared: &Prepared,
    design: &Design,
    blif: &Blif,
    rules: &Rules,
    cell: u32,
    planned: Planned,
    facts: &[CellFacts],
    kept: &mut KeptCells,
) -> Result<Made, NoMemory>
    requires prepared { ArePrepared design.now blif.now rules.now prepared.now }
    requires inputs { AreInputs design.now blif.now rules.now cell }
    requires facts { AreTrueFacts design.now blif.now rules.now facts.now }
    requires planned { (m : ℕ) × IsPlannedCell design.now blif.now rules.now cell m planned }
    requires kept { AreKept design.now blif.now rules.now facts.now kept.old }
    ensures made { IfOk result (IsMade design.now blif.now rules.now cell) }
    ensures flattened { IfOk result (λ made. made.flattened ≡ planned.flattened) }
    ensures checked { IfOk result (λ made. IsCheckedOf (comparison design.now rules.now cell planned.flattened) blif.now facts.now (circuit_in made)) }
    ensures kept { IfOk result (λ _. AreKept design.now blif.now rules.now facts.now kept.new) }
{
    let phases = phases_of(
        flat_comparison(design, rules, cell, &planned.flattened),
        blif,
        facts,
        planned.vars.as_slice(),
        planned.plans.as_slice(),
    );
    let outputs = outputs_of(alloc, phases)?;
    let searched = searched_of(alloc, prepared, phases, &planned.unrolled, kept)?;
    Ok(made_with(planned, searched, outputs))
}
