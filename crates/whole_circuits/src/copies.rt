//! Copies of models and of lists.

ghost use Rattle.std.specs.Prelude.{◌≡◌, IfOk};

use std::alloc::Global;
use vrt_model::{Cover, FlatModel, FlatNet, NoMemory, Seq, Text};

/// A copy of a list.
pub fn copy_items<T: Copy + Drop>(alloc: Global, items: &[T]) -> Result<Seq<T>, NoMemory>
    ensures { IfOk result (λ copy. copy ≡ items.now) }
{
    let mut copy = Seq::new(alloc);
    for item in items {
        copy.append(*item)?;
    }
    Ok(copy)
}

/// A copy of texts.
fn copy_texts(alloc: Global, texts: &[Text]) -> Result<Seq<Text>, NoMemory>
    ensures { IfOk result (λ copy. copy ≡ texts.now) }
{
    let mut copy = Seq::new(alloc);
    for text in texts {
        let text = Text::from_bytes(alloc, text.as_bytes())?;
        copy.append(text)?;
    }
    Ok(copy)
}

/// A copy of a cover.
fn copy_cover(alloc: Global, cover: &Cover) -> Result<Cover, NoMemory>
    ensures { IfOk result (λ copy. copy ≡ cover.now) }
{
    let inputs = copy_items(alloc, cover.inputs.as_slice())?;
    let rows = copy_texts(alloc, cover.rows.as_slice())?;
    Ok(Cover {
        inputs,
        output: cover.output,
        on: cover.on,
        rows,
    })
}

/// A copy of covers.
fn copy_covers(alloc: Global, covers: &[Cover]) -> Result<Seq<Cover>, NoMemory>
    ensures { IfOk result (λ copy. copy ≡ covers.now) }
{
    let mut copy = Seq::new(alloc);
    for cover in covers {
        let cover = copy_cover(alloc, cover)?;
        copy.append(cover)?;
    }
    Ok(copy)
}

/// A copy of a flat model.
pub(crate) fn copy_model(alloc: Global, model: &FlatModel) -> Result<FlatModel, NoMemory>
    ensures { IfOk result (λ copy. copy ≡ model.now) }
{
    let inputs = copy_items(alloc, model.inputs.as_slice())?;
    let clocks = copy_items(alloc, model.clocks.as_slice())?;
    let outputs = copy_items(alloc, model.outputs.as_slice())?;
    let latches = copy_items(alloc, model.latches.as_slice())?;
    let dontcares = copy_items(alloc, model.dontcares.as_slice())?;
    let covers = copy_covers(alloc, model.covers.as_slice())?;
    let signals = copy_texts(alloc, model.signals.as_slice())?;
    Ok(FlatModel {
        signals,
        inputs,
        clocks,
        outputs,
        covers,
        latches,
        dontcares,
    })
}

/// A copy of nets.
pub(crate) fn copy_nets(alloc: Global, nets: &[FlatNet]) -> Result<Seq<FlatNet>, NoMemory>
    ensures { IfOk result (λ copy. copy ≡ nets.now) }
{
    let mut copy = Seq::new(alloc);
    for net in nets {
        let name = Text::from_bytes(alloc, net.name.as_bytes())?;
        copy.append(FlatNet {
            name,
            kind: net.kind,
        })?;
    }
    Ok(copy)
}
