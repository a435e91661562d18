//! The text, or why there is none.

ghost use Rattle.std.specs.Prelude.{◌≡◌, ◌≤◌, All, length};
ghost use Rattle.bdd_core.specs.Store.{IsLive};
ghost use Rattle.diagram_text.specs.Texts.{HasLines, IsLogicIn, ShapedGives, TextGives};
ghost use Rattle.model_writer.specs.Shapes.{shaped_signals};
ghost use Rattle.written_models.specs.Written.{Logic};

use crate::lines::{node_lines, root_numbers};
use bdd_core::{H, Store};
use diagram_lists::list_nodes;
use model_writer::{ModelLines, NodeLine, model_text, signal_count, text_length};
use std::alloc::Global;
use vrt_model::Text;

/// The interface of a model.
#[derive(Clone, Copy)]
pub struct Interface<'a> {
    /// The name of the model.
    pub name: &'a Text,
    /// The signals of `.inputs`, in their order.
    pub inputs: &'a [Text],
    /// The signals of `.clock` that are not among these.
    pub clocks: &'a [Text],
    /// The signals of `.outputs`.
    pub outputs: &'a [Text],
    /// The signals of the variables of the store, in their order.
    pub variables: &'a [Text],
}

/// Why no text is written. Of the first two it is the first that is answered.
#[derive(Clone, Copy)]
pub enum TextRefusal {
    /// The signals, two constants and the nodes among them, are more than 20,000: how many they are.
    Large { count: u64 },
    /// The text has more than 16,777,216 bytes: how many it has.
    Long { bytes: u64 },
    /// Memory is wanting.
    NoMemory,
}

/// The text of a model of few signals, unless it is too long.
fn short_text(alloc: Global, lines: ModelLines<'_>) -> Result<Text, TextRefusal>
    requires few { length lines.nodes.now ≤ 20000 }
    requires signals { shaped_signals lines ≤ 20000 }
    ensures { ShapedGives lines.entry result }
{
    let Ok(bytes) = text_length(lines) else {
        return Err(TextRefusal::NoMemory);
    };
    if bytes > 16_777_216 {
        return Err(TextRefusal::Long { bytes });
    }
    match model_text(alloc, lines) {
        Ok(text) => Ok(text),
        Err(_) => Err(TextRefusal::NoMemory),
    }
}

/// The text of a model. Its signals and its bytes are counted before a byte is written.
fn counted_text(alloc: Global, lines: ModelLines<'_>) -> Result<Text, TextRefusal>
    ensures { ShapedGives lines.entry result }
{
    let Ok(count) = signal_count(lines) else {
        return Err(TextRefusal::NoMemory);
    };
    if count > 20_000 {
        return Err(TextRefusal::Large { count });
    }
    short_text(alloc, lines)
}

/// What is written of nodes and roots.
fn lines_of<'a>(interface: Interface<'a>, nodes: &'a [NodeLine], roots: &'a [u32]) -> ModelLines<'a>
    ensures { HasLines interface.entry nodes.entry.now roots.entry.now result }
{
    ModelLines {
        name: interface.name,
        inputs: interface.inputs,
        clocks: interface.clocks,
        outputs: interface.outputs,
        variables: interface.variables,
        nodes,
        roots,
    }
}

/// The text of a model with this interface whose outputs have the functions of the handles, in their order. It takes steps in the number of the
/// nodes below the handles, and in the length of the text.
pub fn logic_text(
    alloc: Global,
    store: &Store,
    handles: &[H],
    interface: Interface<'_>,
) -> Result<Text, TextRefusal>
    requires live { All (IsLive store.now) handles.now }
    requires variables { length interface.variables.now ≡ store.now.vars }
    ensures { (l : Logic) → IsLogicIn store.now handles.now interface.entry l → TextGives l result }
{
    let Ok(list) = list_nodes(alloc, store, handles) else {
        return Err(TextRefusal::NoMemory);
    };
    let Ok(nodes) = node_lines(alloc, store, &list) else {
        return Err(TextRefusal::NoMemory);
    };
    let Ok(roots) = root_numbers(alloc, store, &list, handles) else {
        return Err(TextRefusal::NoMemory);
    };
    counted_text(
        alloc,
        lines_of(interface, nodes.as_slice(), roots.as_slice()),
    )
}
