//! What is wanted of the nets in a phase.

ghost use Rattle.std.specs.Prelude.{◌≡◌, ◌<◌, ◌++◌, IfOk, OnOk, length};
ghost use Rattle.phase_plan.specs.Gives.{AddsHolds, HasWishes};
ghost use Rattle.phase_terms.specs.Ready.{IsReady, comparison_in};
ghost use Rattle.rule_index.specs.Tables.{AreRuleTables};

use phase_ports::{dontcare_bits, output_wishes};
use phase_terms::Comparison;
use phase_wishes::{Wish, hold_wishes};
use rule_index::RuleIndex;
use std::alloc::Global;
use vrt_model::{NoMemory, Seq};

/// Adds wishes behind those that are there.
fn add_wishes(wishes: &mut Seq<Wish>, more: &[Wish]) -> Result<(), NoMemory>
    ensures { OnOk result (wishes.new ≡ wishes.old ++ more.now) }
{
    let mut rest = more;
    'wishes: while let Some((wish, behind)) = rest.split_first() {
        wishes.append(*wish)?;
        rest = behind;
    }
    Ok(())
}

/// Adds what holds ought to be given.
fn add_holds(
    wishes: &mut Seq<Wish>,
    alloc: Global,
    compared: Comparison<'_>,
    phase: u32,
) -> Result<(), NoMemory>
    requires ready { IsReady (comparison_in compared) }
    ensures { OnOk result (AddsHolds (comparison_in compared.entry) phase wishes.old wishes.new) }
{
    let more = hold_wishes(
        alloc,
        compared.circuit,
        compared.rules,
        compared.groups,
        phase,
    )?;
    add_wishes(wishes, more.as_slice())
}

/// All that nets ought to be given: the output ports that are observed in the phase the bits of their signals, where these are not free,
/// and behind them what the holds ought to be given.
pub(crate) fn wishes_of(
    alloc: Global,
    index: &RuleIndex,
    compared: Comparison<'_>,
    phase: u32,
) -> Result<Seq<Wish>, NoMemory>
    requires ready { IsReady (comparison_in compared) }
    requires tables { AreRuleTables compared.rules.now index.now }
    ensures { IfOk result (HasWishes (comparison_in compared.entry) phase) }
{
    let bits = dontcare_bits(alloc, compared.model)?;
    let mut wishes = output_wishes(
        alloc,
        index,
        compared.design,
        compared.rules,
        compared.cell,
        compared.pairing,
        phase,
        bits.as_slice(),
    )?;
    add_holds(&mut wishes, alloc, compared, phase)?;
    Ok(wishes)
}
