//! A cell whose phases are looked through as often as wanted, in any order, without memory.

ghost use Rattle.std.specs.Prelude.{◌≡◌, ◌<◌, ◌≤◌, ℕ, List, Bool, None, Some, length, IfOk};
ghost use Rattle.bdd_ops.specs.Ops.{bits_of};
ghost use Rattle.cell_compare.specs.Looked.{IsLook};
ghost use Rattle.cell_compare.specs.Workspace.{IsAnswer, IsPhaseAnswer, IsSoundView, KeepsCell, Told, bits_of_last, compared_in};
ghost use Rattle.cell_compare.specs.declared.answers.PhaseVerdict.TheVariants.{Fault};
ghost use Rattle.cell_room.specs.Compared.{AreInputs};
ghost use Rattle.cell_room.specs.Made.{IsMade, IsRoom, circuit_in, searched};
ghost use Rattle.checked_cells.specs.Given.{AreTrueFacts, IsCheckedOf};
ghost use Rattle.drive_levels.specs.PhaseLevels.{KeepsTables};
ghost use Rattle.drive_levels.specs.PortLevels.{AreJoined};
ghost use Rattle.phase_told.specs.declared.site.Site.{Site as SiteValue};
ghost use Rattle.phase_terms.specs.Ready.{comparison_in};
ghost use Rattle.port_drives.specs.Drives.{ArePortDrives};
ghost use Rattle.vrt_model.specs.PairedPorts.{Model, paired_model};
ghost use Rattle.vrt_model.specs.Places.{Finding, IsFirstInPhase};
ghost use Rattle.vrt_model.specs.Unsupported.{comparison_of};
ghost use Rattle.vrt_model.specs.Verdicts.{Describes};
ghost use Rattle.vrt_model.specs.declared.blif.Blif.{Blif as BlifValue};
ghost use Rattle.vrt_model.specs.declared.whole.CellFacts.{CellFacts as FactsValue};

use crate::answers::PhaseVerdict;
use crate::looked::{Last, Look, look_through};
use bdd_core::Store;
use cell_room::{Flattened, Made, Room};
use drive_levels::{NetLevels, PortLevels, join_levels, ports_at};
use node_pool::Mark;
use phase_told::{FoundFault, name_fault};
use port_drives::port_drives;
use std::alloc::Global;
use std::marker::Model;
use vrt_model::{Blif, CellFacts, Design, Drive, FaultAt, NoMemory, Rules, Seq};
use whole_circuits::copy_items;

/// A cell whose phases are looked through as often as wanted and in any order. All memory is taken when it is made.
#[derive(Drop)]
pub struct Workspace<'a> {
    /// The netlist.
    design: &'a Design,
    /// The models, by which the answers are said.
    blif: &'a Blif,
    /// The rules.
    rules: &'a Rules,
    /// The cell, by its place in the netlist.
    cell: u32,
    /// How many nodes the diagrams of a phase may have.
    budget: u32,
    /// All that was made of the cell before its phases are looked through.
    made: Made,
    /// The diagrams and words of the last phase.
    store: Store,
    /// How the store was opened, to which it is cut back before each phase.
    start: Mark,
    /// The levels of the nets of output ports in the last phase that was clear.
    levels: NetLevels,
    /// The phase that was looked through last, with its answer; none before the first.
    last: Option<Last>,
}

impl<'a> Model for Workspace<'a> {
    ghost use Rattle.cell_compare.specs.Workspace.{View};
    ghost use Rattle.std.specs.Coded.{codes};
    ghost use Rattle.vrt_model.specs.contracts.rules.Expr as e;

    ghost Value = { View };

    ghost coded = { Prim.hlevel (codes, e.the_row.coded) };

    ghost use Rattle.cell_compare.specs.Workspace.{view_of, IsSound};

    ghost view = { view_of };

    ghost invariant = { IsSound };
}

/// A phase of a cell for which all is made.
fn look_at<'a>(
    made: &'a Made,
    design: &'a Design,
    rules: &'a Rules,
    cell: u32,
    budget: u32,
    start: Mark,
    phase: u32,
) -> Look<'a>
    requires made { (blif : BlifValue) × IsMade design.now blif rules.now cell made.now }
    requires budget { 65536 ≤ budget }
    requires start { start.nodes ≡ 2 }
    requires phase { phase < length rules.now.phases }
    ensures look { IsLook result }
    ensures compared { comparison_in result.compared ≡ searched design.entry.now rules.entry.now cell made.entry.now }
    ensures phase { result.phase ≡ phase }
    ensures budget { result.budget ≡ budget }
    ensures counts { result.counts ≡ made.entry.now.counts }
    ensures start { result.start ≡ start }
{
    Look {
        compared: made.compared(design, rules, cell),
        phase,
        budget,
        vars: &made.vars.as_slice()[phase as usize],
        plan: &made.plans.as_slice()[phase as usize],
        counts: made.counts,
        start,
    }
}

impl<'a> Workspace<'a> {
    /// The workspace of a cell for which all is made.
    pub(crate) fn new(
        design: &'a Design,
        blif: &'a Blif,
        rules: &'a Rules,
        cell: u32,
        budget: u32,
        made: Made,
        room: Room,
    ) -> Workspace<'a>
        requires inputs { AreInputs design.now blif.now rules.now cell }
        requires budget { (65536 ≤ budget) × (budget ≤ 64000000) }
        requires made { IsMade design.now blif.now rules.now cell made }
        requires room { IsRoom (searched design.now rules.now cell made) budget made.counts.variables made.outputs room }
        ensures { result ≡ record { design = design.entry.now; blif = blif.entry.now; rules = rules.entry.now; cell = cell; budget = budget; made = made; count = 2; levels = room.levels; last = None } }
    {
        let Room {
            store,
            start,
            levels,
        } = room;
        Workspace {
            design,
            blif,
            rules,
            cell,
            budget,
            made,
            store,
            start,
            levels,
            last: None,
        }
    }

    /// Does nothing. It says what is true of a workspace at any time, for the proofs of callers.
    pub fn sound(&self)
        ensures { IsSoundView self.now }
    {
        let _known = self.cell;
    }

    /// Looks through a phase: whether the circuit and the model agree at every valuation that meets its constraints. The answer is that of a
    /// first call, whatever was asked before. No memory is taken.
    ///
    /// `Clear` comes exactly where the cell is equal in the phase, `Vacuous` exactly where no valuation meets its constraints, and a fault is the
    /// first of the phase in the checked circuit and stands in the flat one. `Budget` comes only with more than four variables, where the
    /// nodes that the phase may need are more than the budget, in place of any of these.
    pub fn check_phase(&mut self, phase: u32) -> PhaseVerdict
        requires phase { phase < length self.old.rules.phases }
        ensures found { IsAnswer (compared_in self.old) self.old.budget phase self.new.levels self.new.count (bits_of_last self.new.last) result }
        ensures answer { (m : ℕ) (facts : List FactsValue) → paired_model self.old.design self.old.blif self.old.rules self.old.cell ≡ Model m → AreTrueFacts self.old.design self.old.blif self.old.rules facts → IsCheckedOf (comparison_of self.old.design self.old.blif self.old.rules self.old.cell m) self.old.blif facts (circuit_in self.old.made) → IsPhaseAnswer (comparison_of self.old.design self.old.blif self.old.rules self.old.cell m) self.old.blif facts (circuit_in self.old.made) self.old.budget phase self.new.levels self.new.count (bits_of_last self.new.last) result }
        ensures last { (bits : List Bool) × (self.new.last ≡ Some (record { phase = phase; answer = result; bits = bits })) }
        ensures tables { KeepsTables self.old.levels self.new.levels }
        ensures rest { KeepsCell self.old self.new }
    {
        let look = look_at(
            &self.made,
            self.design,
            self.rules,
            self.cell,
            self.budget,
            self.start,
            phase,
        );
        let last = look_through(&mut self.store, look, &mut self.levels);
        self.last = Some(last);
        last.answer
    }

    /// How many nodes the diagrams of the last phase have, with the two constants.
    pub fn node_count(&self) -> u32
        ensures { result ≡ self.now.count }
    {
        self.store.node_count()
    }

    /// The bit of a variable, by its place among those of the phase, in the valuation of the last fault; 0 where there is none.
    pub fn valuation_bit(&self, var: u32) -> bool
        ensures { result ≡ bits_of (bits_of_last self.now.last) var }
    {
        let Some(last) = self.last else {
            return false;
        };
        let Some(fault) = last.fault else {
            return false;
        };
        if var >= last.variables {
            return false;
        }
        self.store.read(fault.least, var) == 1
    }

    /// How many phases there are.
    pub fn phase_count(&self) -> u32
        ensures { result ≡ length self.now.rules.phases }
    {
        self.rules.phases.len() as u32
    }

    /// The last fault by names. Want of memory is the only refusal where the last answer is a fault.
    pub(crate) fn named(&self, alloc: Global) -> Result<FaultAt, NoMemory>
        requires fault { (t : Told) × (site : SiteValue) × (self.now.last ≡ Some t) × (t.answer ≡ Fault site) }
        ensures { IfOk result (λ told. (t : Told) → self.now.last ≡ Some t → (told.phase ≡ t.phase) × ((f : Finding) × Describes (compared_in self.now) told f × IsFirstInPhase (compared_in self.now) f)) }
    {
        // by the condition the last answer is a fault, so the three refusals cannot come
        let Some(last) = self.last else {
            return Err(NoMemory);
        };
        let Some(fault) = last.fault else {
            return Err(NoMemory);
        };
        let PhaseVerdict::Fault(site) = last.answer else {
            return Err(NoMemory);
        };
        let found = FoundFault {
            compared: self.made.compared(self.design, self.rules, self.cell),
            phase: last.phase,
            fault,
        };
        let vars = &self.made.vars.as_slice()[last.phase as usize];
        name_fault(&self.store, alloc, found, vars, site)
    }

    /// The output ports of the cell, without levels.
    pub(crate) fn ports(&self, alloc: Global) -> Result<PortLevels, NoMemory>
        ensures nets { IfOk result (λ ports. ports.nets ≡ self.now.made.outputs) }
        ensures len { IfOk result (λ ports. length ports.levels.items ≡ length ports.nets) }
    {
        let nets = copy_items(alloc, self.made.outputs.as_slice())?;
        ports_at(alloc, nets)
    }

    /// Joins the levels of the last phase, which was clear, to those of the phases before.
    pub(crate) fn join(&self, first: bool, ports: &mut PortLevels)
        requires len { length ports.old.levels.items ≡ length ports.old.nets }
        ensures nets { ports.new.nets ≡ ports.old.nets }
        ensures joined { AreJoined (circuit_in self.now.made) self.now.levels ports.old.nets first ports.old.levels.items ports.new.levels.items }
    {
        join_levels(self.made.circuit(), &self.levels, first, ports);
    }

    /// The drives of the output ports, where they have these levels in all phases.
    pub(crate) fn drives(
        &self,
        alloc: Global,
        facts: &[CellFacts],
        ports: &PortLevels,
    ) -> Result<Seq<Drive>, NoMemory>
        ensures { IfOk result (ArePortDrives (circuit_in self.now.made) facts.now self.now.made.lone.items ports.now) }
    {
        port_drives(
            alloc,
            self.made.circuit(),
            facts,
            self.made.lone.as_slice(),
            ports,
        )
    }

    /// The flat circuit and the flat model of the cell, of which nothing else is kept.
    pub(crate) fn into_flattened(self) -> Flattened
        ensures { result ≡ self.entry.made.flattened }
    {
        let Workspace {
            design: _design,
            blif: _blif,
            rules: _rules,
            cell: _cell,
            budget: _budget,
            made,
            store: _store,
            start: _start,
            levels: _levels,
            last: _last,
        } = self;
        made.into_flattened()
    }
}
