//! The text of a model.

ghost use Rattle.std.specs.Prelude.{◌≡◌, ◌++◌, ◌∷◌, [], ◌≤◌, IfOk, OnOk, codes, flat_map, length};
ghost use Rattle.model_writer.specs.Pieces.{title};
ghost use Rattle.model_writer.specs.Shapes.{line_cover, line_covers, root_cover, root_covers, shaped_model};
ghost use Rattle.plain_models.specs.Lines.{ended, text_of};
ghost use Rattle.plain_models.specs.Texts.{clock_lines, cover_lines, interface_lines, model_text};
ghost use Rattle.vrt_model.specs.VerdictText.{spaced};
ghost use Rattle.written_models.specs.Written.{constants, numbered, variable_at};

use crate::model::{ModelLines, NodeLine};
use crate::pieces::{add_signal, add_word, add_words};
use std::alloc::Global;
use vrt_model::{NoMemory, Text};

/// Adds a line of a word and a list of words.
fn add_line(text: &mut Text, first: &[u8], words: &[Text]) -> Result<(), NoMemory>
    ensures { OnOk result (text.new ≡ text.old ++ ended (spaced (first.now ∷ words.now))) }
{
    text.extend(first)?;
    add_words(text, words)?;
    text.extend(b"\n")?;
    Ok(())
}

/// Adds the line of the clocks, if there are any.
fn add_clocks(text: &mut Text, clocks: &[Text]) -> Result<(), NoMemory>
    ensures { OnOk result (text.new ≡ text.old ++ text_of (clock_lines clocks.now)) }
{
    let Some((_first, _behind)) = clocks.split_first() else {
        return Ok(());
    };
    add_line(text, b".clock", clocks)?;
    Ok(())
}

/// The name of a variable.
pub(crate) fn variable_of(variables: &[Text], variable: u32) -> &[u8]
    ensures { result.now ≡ variable_at variables.entry.now variable }
{
    match variables.get(variable as usize) {
        Some(name) => name.as_bytes(),
        None => &[],
    }
}

/// Adds the signals of a node's cover, its variable and three numbers.
fn add_node_signals(
    text: &mut Text,
    variable: &[u8],
    number: u32,
    node: NodeLine,
) -> Result<(), NoMemory>
    ensures { OnOk result (text.new ≡ text.old ++ spaced (codes ".names" ∷ variable.now ∷ numbered node.low ∷ numbered node.high ∷ numbered number ∷ [])) }
{
    text.extend(b".names ")?;
    text.extend(variable)?;
    add_signal(text, node.low)?;
    add_signal(text, node.high)?;
    add_signal(text, number)?;
    Ok(())
}

/// Adds the cover of a node.
fn add_node(
    text: &mut Text,
    variables: &[Text],
    number: u32,
    node: NodeLine,
) -> Result<(), NoMemory>
    ensures { OnOk result (text.new ≡ text.old ++ text_of (cover_lines (line_cover variables.now number node))) }
{
    add_node_signals(text, variable_of(variables, node.variable), number, node)?;
    text.extend(b"\n01- 1\n1-1 1\n")?;
    Ok(())
}

/// Adds the covers of nodes, of which the first has the number 2.
fn add_nodes(text: &mut Text, variables: &[Text], nodes: &[NodeLine]) -> Result<(), NoMemory>
    requires few { length nodes.now ≤ 20000 }
    ensures { OnOk result (text.new ≡ text.old ++ text_of (flat_map cover_lines (line_covers variables.now 2 nodes.now))) }
{
    let mut number = 2;
    let mut left = nodes;
    'nodes: while let Some((node, behind)) = left.split_first() {
        add_node(text, variables, number, *node)?;
        number += 1;
        left = behind;
    }
    Ok(())
}

/// Adds the cover of an output.
fn add_root(text: &mut Text, name: &Text, root: u32) -> Result<(), NoMemory>
    ensures { OnOk result (text.new ≡ text.old ++ text_of (cover_lines (root_cover name.now root))) }
{
    text.extend(b".names")?;
    add_signal(text, root)?;
    add_word(text, name)?;
    text.extend(b"\n1 1\n")?;
    Ok(())
}

/// Adds the covers of outputs.
fn add_roots(text: &mut Text, names: &[Text], roots: &[u32]) -> Result<(), NoMemory>
    ensures { OnOk result (text.new ≡ text.old ++ text_of (flat_map cover_lines (root_covers names.now roots.now))) }
{
    let mut names_left = names;
    let mut roots_left = roots;
    'outputs: while let (Some((name, names_behind)), Some((root, roots_behind))) = (
        names_left.split_first(),
        roots_left.split_first(),
    ) {
        add_root(text, name, *root)?;
        names_left = names_behind;
        roots_left = roots_behind;
    }
    Ok(())
}

/// Adds the line of the name.
fn add_title(text: &mut Text, name: &Text) -> Result<(), NoMemory>
    ensures { OnOk result (text.new ≡ text.old ++ ended (spaced (title name.now))) }
{
    text.extend(b".model")?;
    add_word(text, name)?;
    text.extend(b"\n")?;
    Ok(())
}

/// Adds the name and the interface.
fn add_interface(text: &mut Text, lines: ModelLines<'_>) -> Result<(), NoMemory>
    ensures { OnOk result (text.new ≡ text.old ++ text_of (title lines.entry.name.now ∷ interface_lines (shaped_model lines.entry))) }
{
    add_title(text, lines.name)?;
    add_line(text, b".inputs", lines.inputs)?;
    add_clocks(text, lines.clocks)?;
    add_line(text, b".outputs", lines.outputs)?;
    Ok(())
}

/// Adds the covers of the two constants.
fn add_constants(text: &mut Text) -> Result<(), NoMemory>
    ensures { OnOk result (text.new ≡ text.old ++ text_of (flat_map cover_lines constants)) }
{
    text.extend(b".names")?;
    add_signal(text, 0)?;
    text.extend(b"\n.names")?;
    add_signal(text, 1)?;
    text.extend(b"\n1\n")?;
    Ok(())
}

/// Adds all of it.
fn add_model(text: &mut Text, lines: ModelLines<'_>) -> Result<(), NoMemory>
    requires few { length lines.nodes.now ≤ 20000 }
    ensures { OnOk result (text.new ≡ text.old ++ model_text (shaped_model lines.entry)) }
{
    add_interface(text, lines)?;
    add_constants(text)?;
    add_nodes(text, lines.variables, lines.nodes)?;
    add_roots(text, lines.outputs, lines.roots)?;
    text.extend(b".end\n")?;
    Ok(())
}

/// The text of a model, in a time linear in its length.
pub fn model_text(alloc: Global, lines: ModelLines<'_>) -> Result<Text, NoMemory>
    requires few { length lines.nodes.now ≤ 20000 }
    ensures { IfOk result (λ text. text ≡ model_text (shaped_model lines.entry)) }
{
    let mut text = Text::new(alloc);
    add_model(&mut text, lines)?;
    Ok(text)
}
