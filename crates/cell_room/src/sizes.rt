//! How large the store of a comparison is.

ghost use Rattle.std.specs.Prelude.{◌≡◌, ◌≤◌, ◌+◌, ◌*◌, All, length, min, IfOk};
ghost use Rattle.cell_room.specs.Works.{AreWithin};
ghost use Rattle.cell_room.specs.Sizes.{elements_in};
ghost use Rattle.path_fixpoint.specs.Parts.{pins_of};
ghost use Rattle.phase_terms.specs.Ready.{comparison_in};
ghost use Rattle.phase_terms.specs.Stores.{counts_of};
ghost use Rattle.vrt_model.specs.Circuits.{IsCircuit};
ghost use Rattle.vrt_model.specs.Elements.{element_count, element_names};
ghost use Rattle.vrt_model.specs.FlatModels.{IsFlatModel};
ghost use Rattle.vrt_model.specs.declared.groups.Vars.{Vars as VarsValue};

use phase_open::most_model_words;
use phase_terms::{Comparison, WordCounts};
use vrt_model::{Circuit, FlatLatch, FlatModel, LatchKind, NoMemory, Vars};

/// How many elements a latch has: a triggered one has two.
fn element_count(kind: LatchKind) -> u32
    ensures { result ≡ element_count kind }
{
    match kind {
        LatchKind::Re => 2,
        LatchKind::Fe => 2,
        LatchKind::Ah => 1,
        LatchKind::Al => 1,
    }
}

/// So many more.
fn more(count: u32, other: u32) -> Result<u32, NoMemory>
    ensures { IfOk result (λ sum. sum ≡ count + other) }
{
    match count.checked_add(other) {
        Some(sum) => Ok(sum),
        None => Err(NoMemory),
    }
}

/// How many elements some latches have.
fn elements_of(latches: &[FlatLatch]) -> Result<u32, NoMemory>
    ensures { IfOk result (λ count. count ≡ elements_in latches.now) }
{
    let mut count = 0;
    let mut rest = latches;
    'latches: while let Some((latch, behind)) = rest.split_first() {
        count = more(count, element_count(latch.kind))?;
        rest = behind;
    }
    Ok(count)
}

/// How many elements a model has.
fn model_elements(model: &FlatModel) -> Result<u32, NoMemory>
    ensures { IfOk result (λ count. count ≡ length (element_names model.now)) }
{
    elements_of(model.latches.as_slice())
}

/// How many outputs of whole instances a checked circuit has words for, by its flat circuit: forty for each pair of a net with a net or a
/// device, and no more than a million. Each circuit has fewer: an output that is soft is alone at its net, and one with a level has a device
/// of its own inside its instance, which is one of the flat circuit.
pub(crate) fn most_outputs(flat: &Circuit) -> u32
    requires { IsCircuit flat.now }
    ensures { result ≡ min (40 * ((length flat.now.nets + 1) * (length flat.now.nets + length flat.now.devices + 1))) 1000000 }
{
    let nets = flat.nets.len() as u64;
    let devices = flat.devices.len() as u64;
    let outputs = 40 * ((nets + 1) * (nets + devices + 1));
    if outputs < 1_000_000 {
        outputs as u32
    } else {
        1_000_000
    }
}

/// So many and as many more, where these are no more than there is room for.
fn more_pins(count: u32, outputs: usize, most: u32) -> Result<u32, NoMemory>
    requires { count ≤ most }
    ensures { IfOk result (λ all. (all ≡ count + outputs) × (all ≤ most)) }
{
    if outputs > (most - count) as usize {
        return Err(NoMemory);
    }
    Ok(count + outputs as u32)
}

/// How many outputs the whole instances of a circuit have, `most` at most; there is no room for the words of more.
fn pin_count(circuit: &Circuit, most: u32) -> Result<u32, NoMemory>
    ensures { IfOk result (λ count. (count ≡ length (pins_of circuit.now)) × (count ≤ most)) }
{
    let mut count = 0;
    for whole in circuit.wholes.as_slice() {
        count = more_pins(count, whole.outputs.len(), most)?;
    }
    Ok(count)
}

/// The words of a comparison, for so many variables, and for at most so many outputs of whole instances.
pub(crate) fn counts_with(
    compared: Comparison<'_>,
    variables: u32,
    most: u32,
) -> Result<WordCounts, NoMemory>
    requires circuit { IsCircuit compared.circuit.now }
    requires model { IsFlatModel compared.model.now }
    ensures is { IfOk result (λ counts. counts ≡ counts_of (comparison_in compared.entry) variables) }
    ensures few { IfOk result (λ counts. counts.pins ≤ most) }
{
    let pins = pin_count(compared.circuit, most)?;
    let elements = model_elements(compared.model)?;
    Ok(WordCounts {
        nets: compared.circuit.nets.len() as u32,
        source: compared.circuit.source_level(),
        pins,
        models: most_model_words(compared.circuit.wholes.as_slice()),
        signals: compared.model.signals.len() as u32,
        elements,
        variables,
    })
}

/// The greatest count of variables that a phase has.
pub(crate) fn most_variables(vars: &[Vars]) -> u32
    requires { All (λ (v : VarsValue). length v.sources ≤ 1000) vars.now }
    ensures few { result ≤ 1000 }
    ensures within { AreWithin vars.now result }
{
    let mut most = 0;
    for phase in 0..vars.len() {
        let count = vars[phase].sources.len() as u32;
        if count > most {
            most = count;
        }
    }
    most
}
