//! A model evaluated at every valuation of the variables of a store.

ghost use Rattle.std.specs.Prelude.{◌≡◌, ◌≢◌, ℕ, ◌+◌, ◌*◌, ◌<◌, ◌≤◌, [], Some, length, slice_get, sum_by, IfErr, IfOk};
ghost use Rattle.bdd_core.specs.Diagram.{Valuation};
ghost use Rattle.bdd_core.specs.Store.{IsSpan, Gives};
ghost use Rattle.bdd_core.specs.Words.{IsFilled, Writes, shows, word_at};
ghost use Rattle.blif_eval.specs.Drivers.{AreDrivers, IsDriver, node_count};
ghost use Rattle.blif_eval.specs.Evaluated.{AreSteps, HasModelSpans, IsEvaluated, IsPlannedFor};
ghost use Rattle.bdd_ops.specs.Counting.{Counts, IsSpanWithin};
ghost use Rattle.blif_eval.specs.Operations.{driver_operations, number_operations, operations_of, weighed};
ghost use Rattle.blif_eval.specs.Settled.{AreSettled, HasRange, HasStepSpans, TakesValue, control_word, cover_value, function_at, function_by, bits_in};
ghost use Rattle.blif_eval.specs.declared.driver_table.Driver.TheVariants.{Element};
ghost use Rattle.vrt_model.specs.Budget.{model_size};
ghost use Rattle.vrt_model.specs.FlatModels.{IsControl, IsFlatModel};

use crate::ModelPlan;
use crate::choice::choose;
use crate::cover::cover_diagram;
use crate::driver_table::{Driver, Storage, driver_at};
use bdd_core::{H, Spent, Store, ZERO};
use node_pool::Span;
use vrt_model::FlatModel;

/// Writes the constant 0 into each word.
fn clear(store: &mut Store, out: Span)
    requires out { IsSpan store.old out }
    ensures writes { Writes out store.old store.new }
    ensures rest { store.new ≡ record store.old { words = store.new.words } }
    ensures zeros { (k : ℕ) → k < out.len → word_at store.new out k ≡ 0 }
{
    store.sound();
    for at in 0..out.len {
        store.write(out, at, 0);
    }
}

/// The function of the cover at a place.
fn covered(store: &mut Store, flat: &FlatModel, place: usize, out: Span) -> Result<H, Spent>
    requires model { IsFlatModel flat.now }
    requires span { IsSpan store.old out }
    requires live { IsFilled store.old out }
    requires len { length flat.now.signals ≤ out.len }
    ensures gives { Gives store.old store.new (λ v. cover_value flat.now.covers place (bits_in store.old out v)) result }
    ensures counts { (u : ℕ) → IsSpanWithin u store.old out → Counts u (weighed operations_of (slice_get flat.now.covers place)) store.old store.new result }
{
    store.sound();
    match flat.covers.get(place) {
        Some(cover) => cover_diagram(store, cover, out),
        None => Ok(ZERO),
    }
}

/// The handle of a control: that of its signal, or the one of the default clock, which stands behind those of the inputs.
fn control_handle(store: &Store, control: Option<u32>, signals: u32, inputs: Span, out: Span) -> H
    requires inputs { IsSpan store.now inputs }
    requires clock { signals < inputs.len }
    requires out { IsSpan store.now out }
    requires control { IsControl out.len control }
    ensures { result.0 ≡ control_word store.now signals inputs out control }
{
    match control {
        Some(signal) => H(store.read(out, signal)),
        None => H(store.read(inputs, signals)),
    }
}

/// The function of an element.
fn element(
    store: &mut Store,
    flat: &FlatModel,
    storage: Storage,
    inputs: Span,
    held: Span,
    out: Span,
) -> Result<H, Spent>
    requires spans { HasStepSpans flat.now inputs held out store.old }
    requires range { HasRange flat.now storage }
    requires few { length flat.now.signals ≤ 20000 }
    ensures gives { Gives store.old store.new (function_by store.old flat.now inputs held out 0 (Element storage)) result }
    ensures counts { (u : ℕ) → IsSpanWithin u store.old inputs → IsSpanWithin u store.old held → IsSpanWithin u store.old out → Counts u 1 store.old store.new result }
{
    store.sound();
    let signals = flat.signals.len() as u32;
    let control = control_handle(store, storage.control, signals, inputs, out);
    let source = H(store.read(out, storage.source));
    let kept = H(store.read(held, storage.element));
    choose(store, storage.open_at, control, source, kept)
}

/// The function of a number by what gives it its bit.
fn value_by(
    store: &mut Store,
    flat: &FlatModel,
    driver: Driver,
    inputs: Span,
    held: Span,
    out: Span,
    number: u32,
) -> Result<H, Spent>
    requires model { IsFlatModel flat.now }
    requires spans { HasStepSpans flat.now inputs held out store.old }
    requires driver { IsDriver flat.now number driver }
    ensures gives { Gives store.old store.new (function_by store.old flat.now inputs held out number driver) result }
    ensures counts { (u : ℕ) → IsSpanWithin u store.old inputs → IsSpanWithin u store.old held → IsSpanWithin u store.old out → Counts u (driver_operations flat.now.covers driver) store.old store.new result }
{
    store.sound();
    match driver {
        Driver::Given => Ok(H(store.read(inputs, number))),
        Driver::Covered(place) => covered(store, flat, place, out),
        Driver::Stored(last) => Ok(H(store.read(out, last))),
        Driver::Element(storage) => element(store, flat, storage, inputs, held, out),
    }
}

/// Writes the value of a number.
fn settle(
    store: &mut Store,
    flat: &FlatModel,
    drivers: &[Driver],
    inputs: Span,
    held: Span,
    out: Span,
    number: u32,
) -> Result<(), Spent>
    requires model { IsFlatModel flat.now }
    requires spans { HasStepSpans flat.now inputs held out store.old }
    requires drivers { AreDrivers flat.now drivers.now }
    requires number { number < node_count flat.now }
    ensures writes { Writes out store.old store.new }
    ensures others { (k : ℕ) → k ≢ number → word_at store.new out k ≡ word_at store.old out k }
    ensures value { IfOk result (λ _. TakesValue flat.now drivers.now inputs held out store.old store.new number) }
    ensures spent { IfErr result (λ spent. (spent.nodes ≡ store.new.budget) × (length store.new.nodes ≡ store.new.budget)) }
    ensures counts { (u : ℕ) → IsSpanWithin u store.old inputs → IsSpanWithin u store.old held → IsSpanWithin u store.old out → Counts u (number_operations flat.now drivers.now number) store.old store.new result }
{
    store.sound();
    let driver = driver_at(drivers, number);
    let value = match value_by(store, flat, driver, inputs, held, out, number) {
        Ok(value) => value,
        Err(spent) => return Err(spent),
    };
    store.write(out, number, value.0);
    Ok(())
}

/// Writes the values of the signals and elements in the order of a plan.
fn settle_all(
    store: &mut Store,
    flat: &FlatModel,
    drivers: &[Driver],
    steps: &[u32],
    inputs: Span,
    held: Span,
    out: Span,
) -> Result<(), Spent>
    requires model { IsFlatModel flat.now }
    requires spans { HasStepSpans flat.now inputs held out store.old }
    requires plan { AreSteps flat.now drivers.now steps.now inputs store.old }
    ensures writes { Writes out store.old store.new }
    ensures settled { IfOk result (λ _. AreSettled flat.now drivers.now steps.now inputs held out store.old store.new (length steps.now)) }
    ensures spent { IfErr result (λ spent. (spent.nodes ≡ store.new.budget) × (length store.new.nodes ≡ store.new.budget)) }
    ensures counts { (u : ℕ) → IsSpanWithin u store.old inputs → IsSpanWithin u store.old held → IsSpanWithin u store.old out → Counts u (sum_by (number_operations flat.now drivers.now) steps.now) store.old store.new result }
{
    store.sound();
    for number in steps {
        match settle(store, flat, drivers, inputs, held, out, *number) {
            Ok(()) => {}
            Err(spent) => return Err(spent),
        }
    }
    Ok(())
}

/// Writes the bits of the one assignment of a model, at every valuation of the variables of the store: a handle for each
/// signal, and behind them one for the new bit of each element. `inputs` has a handle for each signal, of which those of
/// the inputs and clocks count, and one more for the default clock, and `held` one for the old bit of each element. The
/// value of a cover is that of the Berkeley Logic Interchange Format, with rows of the off-set. The bits that were known
/// where the plan was made stand in `inputs` as constants.
///
/// Handles from before keep their functions and words outside `out` stay as they are, also after `Spent`, which has the
/// budget and comes only where as many nodes are there.
///
/// Where the handles read only the first `u` variables, at most `2 ^ u * 2 * s` nodes are added, for `s` literals,
/// rows and latches of the model, and they test these variables. `Spent` comes only where the budget is less than all of
/// these with the nodes that were there; and, where `u` is at most 4 and the nodes that were there test the first four
/// variables, only where the budget is less than 65,536, the number of functions of four variables.
pub fn eval_model(
    store: &mut Store,
    flat: &FlatModel,
    plan: &ModelPlan,
    inputs: Span,
    held: Span,
    out: Span,
) -> Result<(), Spent>
    requires model { IsFlatModel flat.now }
    requires spans { HasModelSpans flat.now inputs held out store.old }
    requires plan { IsPlannedFor flat.now plan.now inputs store.old }
    ensures writes { Writes out store.old store.new }
    ensures evaluated { IfOk result (λ _. (v : Valuation) → IsEvaluated flat.now inputs held out store.old store.new v) }
    ensures spent { IfErr result (λ spent. (spent.nodes ≡ store.new.budget) × (length store.new.nodes ≡ store.new.budget)) }
    ensures counts { (u : ℕ) → IsSpanWithin u store.old inputs → IsSpanWithin u store.old held → Counts u (2 * model_size flat.now) store.old store.new result }
{
    clear(store, out);
    settle_all(
        store,
        flat,
        plan.drivers.as_slice(),
        plan.steps.as_slice(),
        inputs,
        held,
        out,
    )
}
