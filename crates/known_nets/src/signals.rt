//! What the nets of a region show: their strengths, and which of them each value reaches.

ghost use Rattle.std.specs.Prelude.{◌≡◌, length, IfOk, OnOk};
ghost use Rattle.known_nets.specs.Incidence.{IsIncidence};
ghost use Rattle.known_nets.specs.Learned.{shown_of};
ghost use Rattle.known_nets.specs.Regions.{AreRaised, AreRegionSignals, AreZero};
ghost use Rattle.known_nets.specs.Spreads.{AreListed, AreNone, ArePlain, IsSpread};

use crate::amounts::Amounts;
use crate::incidence::Incidence;
use crate::spread::{Spread, Spreading, spread_from};
use std::alloc::Global;
use vrt_model::{Circuit, NoMemory};

/// Amounts that are all 0 but while one region is looked at.
pub(crate) struct Tables {
    /// The strengths of the nets of the region.
    pub(crate) levels: Amounts,
    /// 1 at the nets that 0 reaches.
    pub(crate) zeros: Amounts,
    /// 1 at the nets that 1 reaches.
    pub(crate) ones: Amounts,
}

/// By hand, so that letting go of one is a call.
impl Drop for Tables {
    fn drop(self) {
        let Tables {
            levels: _levels,
            zeros: _zeros,
            ones: _ones,
        } = self;
    }
}

/// The bit that a net shows, where these tables have amounts at the nets that 0 and 1 reach.
pub(crate) fn shown(tables: &Tables, net: usize) -> Option<bool>
    ensures { result ≡ shown_of tables.now.zeros.table.items tables.now.ones.table.items net }
{
    let zero = 0 < tables.zeros.at(net);
    let one = 0 < tables.ones.at(net);
    match (zero, one) {
        (true, true) => None,
        (true, false) => Some(false),
        (false, true) => Some(true),
        (false, false) => None,
    }
}

/// Lets amounts spread from nothing over these nets.
fn spread_over(over: Spreading<'_>, nets: &[usize], amounts: &mut Amounts) -> Result<(), NoMemory>
    requires by { IsIncidence over.circuit.now over.by.now }
    requires plain { ArePlain over.circuit.now nets.now }
    requires none { AreNone (length over.circuit.now.nets) amounts.old }
    ensures size { OnOk result (length amounts.new.table.items ≡ length over.entry.circuit.now.nets) }
    ensures spread { OnOk result (IsSpread over.entry.spread over.entry.circuit.now over.entry.known.now over.entry.levels.now nets.now amounts.new.table.items) }
    ensures listed { OnOk result (AreListed amounts.new) }
{
    amounts.begin_over(nets)?;
    spread_from(over, amounts)
}

/// Lets strengths and values spread over the nets of a region.
pub(crate) fn find_signals(
    circuit: &Circuit,
    by: &Incidence,
    known: &[Option<bool>],
    nets: &[usize],
    tables: &mut Tables,
) -> Result<(), NoMemory>
    requires by { IsIncidence circuit.now by.now }
    requires plain { ArePlain circuit.now nets.now }
    requires tables { AreZero (length circuit.now.nets) tables.old }
    ensures signals { OnOk result (AreRegionSignals circuit.now known.now nets.now tables.new) }
    ensures raised { OnOk result (AreRaised (length circuit.now.nets) tables.new) }
{
    let strength = Spreading {
        circuit,
        by,
        known,
        spread: Spread::Strength,
        levels: &[],
    };
    spread_over(strength, nets, &mut tables.levels)?;
    let levels = tables.levels.table.as_slice();
    let zero = Spreading {
        circuit,
        by,
        known,
        spread: Spread::Value(false),
        levels,
    };
    spread_over(zero, nets, &mut tables.zeros)?;
    let one = Spreading {
        circuit,
        by,
        known,
        spread: Spread::Value(true),
        levels,
    };
    spread_over(one, nets, &mut tables.ones)
}

impl Tables {
    /// Tables of amounts that are all 0.
    pub(crate) fn none(alloc: Global, count: usize) -> Result<Tables, NoMemory>
        ensures { IfOk result (AreZero count) }
    {
        Ok(Tables {
            levels: Amounts::none(alloc, count)?,
            zeros: Amounts::none(alloc, count)?,
            ones: Amounts::none(alloc, count)?,
        })
    }

    /// Sets all amounts back to 0.
    pub(crate) fn clear(&mut self)
        requires { AreRaised (length self.old.levels.table.items) self.old }
        ensures { AreZero (length self.old.levels.table.items) self.new }
    {
        self.levels.clear();
        self.zeros.clear();
        self.ones.clear();
    }
}
