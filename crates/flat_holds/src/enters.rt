//! The constants with which holds enter phases.

ghost use Rattle.std.specs.Prelude.{◌≡◌, ◌++◌, [], filter_map, IfOk, OnOk};
ghost use Rattle.std.specs.List.{cons_option};
ghost use Rattle.flat_holds.specs.Ends.{enter_at, enter_by};
ghost use Rattle.rule_index.specs.Lines.{AreChargeLines};

use rule_index::ChargeLines;
use std::alloc::Global;
use vrt_model::{Enter, EnterRule, HoldRule, NoMemory, Rules, Seq};

/// The constant that an `enter` line gives a hold, if it is of the net of the hold.
fn enter_by(hold: &HoldRule, line: &EnterRule) -> Option<Enter>
    ensures { result ≡ enter_by hold.now line.now }
{
    if line.cell.as_bytes() == hold.cell.as_bytes() && line.net.as_bytes() == hold.net.as_bytes() {
        Some(Enter {
            phase: line.phase,
            value: line.value,
        })
    } else {
        None
    }
}

/// The constant that the `enter` line at a place gives a hold, if it is of the net of the hold.
fn enter_at(hold: &HoldRule, lines: &[EnterRule], at: usize) -> Option<Enter>
    ensures { result ≡ enter_at hold.now lines.now at }
{
    match lines.get(at) {
        Some(line) => enter_by(hold, line),
        None => None,
    }
}

/// Adds a constant, if there is one.
fn add(enters: &mut Seq<Enter>, enter: Option<Enter>) -> Result<(), NoMemory>
    ensures { OnOk result (enters.new ≡ enters.old ++ cons_option enter []) }
{
    let Some(enter) = enter else {
        return Ok(());
    };
    enters.append(enter)
}

/// The constants that the `enter` lines at places give a hold, in the order of the lines.
#[tactic(auto, using(vrt_model::proofs::Lists::pushed))]
fn enters_at(
    alloc: Global,
    lines: &[EnterRule],
    places: &[usize],
    hold: &HoldRule,
) -> Result<Seq<Enter>, NoMemory>
    ensures { IfOk result (λ enters. enters ≡ filter_map (enter_at hold.now lines.now) places.now) }
{
    let mut enters = Seq::new(alloc);
    let mut rest = places;
    'places: while let Some((at, behind)) = rest.split_first() {
        add(&mut enters, enter_at(hold, lines, *at))?;
        rest = behind;
    }
    Ok(enters)
}

/// The constants that `enter` lines give a hold, in the order of the lines.
pub(crate) fn enters_of(
    alloc: Global,
    rules: &Rules,
    lines: &ChargeLines,
    hold: &HoldRule,
) -> Result<Seq<Enter>, NoMemory>
    requires { AreChargeLines rules.now lines.now }
    ensures { IfOk result (λ enters. enters ≡ filter_map (enter_by hold.now) rules.now.enters) }
{
    let places = lines.enters.places(hold.cell.as_bytes());
    enters_at(alloc, rules.enters.as_slice(), places, hold)
}
