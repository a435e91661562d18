//! The known nets, from a list of nets to be looked at. What a net shows hangs on its region alone: where this is shut, the
//! bits that its nets show are learned, and the nets at the devices that they gate are looked at again, and no others.

ghost use Rattle.std.specs.Prelude.{◌≡◌, ℕ, true, length, vec_len, IfOk};
ghost use Rattle.known_nets.specs.Conduction.{is_plain_at};
ghost use Rattle.known_nets.specs.Incidence.{IsIncidence};
ghost use Rattle.known_nets.specs.KnownTables.{AreKnown, HasFixedNets, IsKnownTable, known_at};
ghost use Rattle.known_nets.specs.Regions.{GoTogether, IsRegion, IsShutAt};
ghost use Rattle.known_nets.specs.Searches.{HasLookedAround, HasLookedAt, HasSearched, IsBegun, IsReady, IsSearch};
ghost use Rattle.known_nets.specs.Waits.{waits};
ghost use Rattle.known_nets.specs.Wired.{IsWired};
ghost use Rattle.vrt_model.specs.Lists.{Among, has_number};
ghost use Rattle.vrt_model.specs.declared.rules.Phase.{Phase as PhaseValue};

use crate::amounts::Amounts;
use crate::fixed::fixed_bits;
use crate::incidence::{Incidence, devices_by_net};
use crate::learn::learn;
use crate::region::{is_shut, region};
use crate::signals::{Tables, find_signals};
use crate::waiting::Waiting;
use std::alloc::Global;
use vrt_model::{Circuit, NoMemory, Phase};

/// A search for the known nets of a circuit.
#[derive(Drop)]
pub(crate) struct Search {
    /// The bits that are known, by net.
    pub(crate) known: Vec<Option<bool>>,
    /// The nets whose regions are to be looked at.
    pub(crate) waiting: Waiting,
    /// 1 at the nets of the region that is looked for.
    pub(crate) inside: Amounts,
    /// What comes to the nets of the region that is looked at.
    pub(crate) tables: Tables,
}

impl Search {
    /// A search in which the supplies and the clock ports are known, and no net waits.
    fn begin(alloc: Global, circuit: &Circuit, phase: &Phase) -> Result<Search, NoMemory>
        ensures { IfOk result (IsBegun circuit.now phase.now) }
    {
        let count = circuit.nets.len();
        let known = fixed_bits(alloc, circuit.nets.as_slice(), phase)?;
        let waiting = Waiting::none(alloc, count)?;
        let inside = Amounts::none(alloc, count)?;
        let tables = Tables::none(alloc, count)?;
        Ok(Search {
            known,
            waiting,
            inside,
            tables,
        })
    }

    /// Learns the bits that the nets of a shut region show, and says whether any was not known before.
    fn learn_shut_region(
        &mut self,
        circuit: &Circuit,
        by: &Incidence,
        nets: &[usize],
    ) -> Result<bool, NoMemory>
        requires wired { IsWired circuit.now }
        requires by { IsIncidence circuit.now by.now }
        requires search { IsSearch circuit.now self.old }
        requires region { IsRegion circuit.now self.old.known.items (has_number nets.now) }
        requires shut { (n : ℕ) → Among nets.now n → IsShutAt circuit.now self.old.known.items n }
        ensures { IfOk result (λ more. HasLookedAt circuit.now nets.now more self.old self.new) }
    {
        find_signals(circuit, by, self.known.as_slice(), nets, &mut self.tables)?;
        let more = learn(
            circuit,
            by,
            nets,
            &self.tables,
            &mut self.known,
            &mut self.waiting,
        )?;
        self.tables.clear();
        Ok(more)
    }

    /// Learns the bits that the nets of a region show where it is shut, and says whether any was not known before.
    fn learn_region(
        &mut self,
        circuit: &Circuit,
        by: &Incidence,
        nets: &[usize],
    ) -> Result<bool, NoMemory>
        requires wired { IsWired circuit.now }
        requires by { IsIncidence circuit.now by.now }
        requires search { IsSearch circuit.now self.old }
        requires region { IsRegion circuit.now self.old.known.items (has_number nets.now) }
        requires together { (phase : PhaseValue) (m n : ℕ) → Among nets.now m → Among nets.now n → GoTogether circuit.now phase self.old.known.items m n }
        ensures { IfOk result (λ more. HasLookedAt circuit.now nets.now more self.old self.new) }
    {
        if is_shut(circuit, by, self.known.as_slice(), nets) {
            self.learn_shut_region(circuit, by, nets)
        } else {
            Ok(false)
        }
    }

    /// Learns what the region of a plain net shows: no net of it waits any more. Says whether any net was learned.
    fn learn_around(
        &mut self,
        alloc: Global,
        circuit: &Circuit,
        by: &Incidence,
        net: usize,
    ) -> Result<bool, NoMemory>
        requires wired { IsWired circuit.now }
        requires by { IsIncidence circuit.now by.now }
        requires plain { is_plain_at circuit.now net ≡ true }
        requires search { IsSearch circuit.now self.old }
        ensures { IfOk result (λ more. HasLookedAround circuit.now net more self.old self.new) }
    {
        let nets = region(
            alloc,
            circuit,
            by,
            self.known.as_slice(),
            net,
            &mut self.inside,
        )?;
        self.waiting.forget(nets.as_slice());
        let more = self.learn_region(circuit, by, nets.as_slice())?;
        Ok(more)
    }

    /// Looks at the regions of the nets that wait until a net is learned, and says whether one was.
    fn learn_next(
        &mut self,
        alloc: Global,
        circuit: &Circuit,
        by: &Incidence,
    ) -> Result<bool, NoMemory>
        requires wired { IsWired circuit.now }
        requires by { IsIncidence circuit.now by.now }
        requires ready { IsReady circuit.now self.old }
        ensures { IfOk result (λ more. HasSearched circuit.now more self.old self.new) }
    {
        while let Some(net) = self.waiting.list.pop() {
            if self.waiting.has_plain(circuit, net) {
                let more = self.learn_around(alloc, circuit, by, net)?;
                if more {
                    return Ok(true);
                }
            }
        }
        Ok(false)
    }

    /// Looks at the regions of the nets that wait until none waits.
    fn learn_all(
        &mut self,
        alloc: Global,
        circuit: &Circuit,
        by: &Incidence,
    ) -> Result<(), NoMemory>
        requires wired { IsWired circuit.now }
        requires by { IsIncidence circuit.now by.now }
        requires ready { IsReady circuit.now self.old }
        requires all { (n : ℕ) → is_plain_at circuit.now n ≡ true → waits self.old.waiting n ≡ true }
        ensures known { IfOk result (λ _. (phase : PhaseValue) → HasFixedNets circuit.now phase (known_at self.old.known.items) → AreKnown circuit.now phase (known_at self.old.known.items) → IsKnownTable circuit.now phase (known_at self.new.known.items)) }
        ensures size { IfOk result (λ _. length self.new.known.items ≡ length circuit.now.nets) }
    {
        'rounds: loop {
            let more = self.learn_next(alloc, circuit, by)?;
            if !more {
                return Ok(());
            }
        }
    }
}

/// The known nets of a circuit in a phase, with their bits, by net: the supplies and the clock ports, and the nets that show
/// one bit before anything is solved, whatever the outputs of whole instances are. Nothing but want of memory refuses.
pub fn known_nets(
    alloc: Global,
    circuit: &Circuit,
    phase: &Phase,
) -> Result<Vec<Option<bool>>, NoMemory>
    requires { IsWired circuit.now }
    ensures len { IfOk result (λ t. vec_len t ≡ length circuit.now.nets) }
    ensures known { IfOk result (λ t. IsKnownTable circuit.now phase.now (known_at t.items)) }
{
    let by = devices_by_net(alloc, circuit)?;
    let mut search = Search::begin(alloc, circuit, phase)?;
    search.waiting.put_all(circuit)?;
    search.learn_all(alloc, circuit, &by)?;
    Ok(search.known)
}
