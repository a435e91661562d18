//! How many signals and bytes a model has, before a byte of it is written.

ghost use Rattle.std.specs.Prelude.{◌≡◌, ◌+◌, ◌≤◌, ◌∷◌, IfOk, flat_map, length};
ghost use Rattle.model_writer.specs.Pieces.{title, words_behind};
ghost use Rattle.model_writer.specs.Shapes.{line_cover, line_covers, root_cover, root_covers, shaped_model, shaped_signals};
ghost use Rattle.plain_models.specs.Lines.{text_of};
ghost use Rattle.plain_models.specs.Texts.{clock_lines, cover_lines, interface_lines, model_text};
ghost use Rattle.written_models.specs.Written.{numbered};

use crate::model::{ModelLines, NodeLine};
use crate::text::variable_of;
use itoa::Buffer;
use vrt_model::{NoMemory, Text};

/// The sum of two counts. No memory holds so much that it does not fit.
fn sum(count: u64, more: u64) -> Result<u64, NoMemory>
    ensures { IfOk result (λ all. all ≡ count + more) }
{
    match count.checked_add(more) {
        Some(all) => Ok(all),
        None => Err(NoMemory),
    }
}

/// How many signals a model has: those of its interface, the two constants, and one for each node.
pub fn signal_count(lines: ModelLines<'_>) -> Result<u64, NoMemory>
    ensures { IfOk result (λ count. count ≡ shaped_signals lines.entry) }
{
    let given = sum(lines.inputs.len() as u64, lines.clocks.len() as u64)?;
    let interface = sum(given, lines.outputs.len() as u64)?;
    let first = sum(interface, 2)?;
    let count = sum(first, lines.nodes.len() as u64)?;
    Ok(count)
}

/// How many bytes the signal of a number has.
fn number_length(number: u32) -> u64
    ensures is { result ≡ length (numbered number) }
    ensures few { result ≤ 41 }
{
    let mut buffer = Buffer::new();
    1 + buffer.format(number).len() as u64
}

/// How many bytes words have, each with a space before it.
fn words_length(words: &[Text]) -> Result<u64, NoMemory>
    ensures { IfOk result (λ count. count ≡ length (words_behind words.now)) }
{
    let mut count = 0;
    for word in words {
        count = sum(count, 1 + word.as_bytes().len() as u64)?;
    }
    Ok(count)
}

/// How many bytes a line has, of a word with so many bytes and a list of words.
fn line_length(first: u64, words: &[Text]) -> Result<u64, NoMemory>
    requires { first ≤ 100 }
    ensures { IfOk result (λ count. count ≡ first + length (words_behind words.now) + 1) }
{
    let count = words_length(words)?;
    let all = sum(count, first + 1)?;
    Ok(all)
}

/// How many bytes the line of the clocks has, none where there are no clocks.
fn clocks_length(clocks: &[Text]) -> Result<u64, NoMemory>
    ensures { IfOk result (λ count. count ≡ length (text_of (clock_lines clocks.now))) }
{
    let Some((_first, _behind)) = clocks.split_first() else {
        return Ok(0);
    };
    let count = line_length(6, clocks)?;
    Ok(count)
}

/// How many bytes the cover of a node has.
fn node_length(variables: &[Text], number: u32, node: NodeLine) -> u64
    ensures { result ≡ length (text_of (cover_lines (line_cover variables.now number node))) }
{
    let variable = variable_of(variables, node.variable).len() as u64;
    let branches = number_length(node.low) + number_length(node.high);
    variable + branches + number_length(number) + 23
}

/// How many bytes the covers of nodes have.
fn nodes_length(variables: &[Text], nodes: &[NodeLine]) -> Result<u64, NoMemory>
    requires few { length nodes.now ≤ 20000 }
    ensures { IfOk result (λ count. count ≡ length (text_of (flat_map cover_lines (line_covers variables.now 2 nodes.now)))) }
{
    let mut count = 0;
    let mut number = 2;
    for node in nodes {
        count = sum(count, node_length(variables, number, *node))?;
        number += 1;
    }
    Ok(count)
}

/// How many bytes the cover of an output has.
fn root_length(name: &Text, root: u32) -> u64
    ensures { result ≡ length (text_of (cover_lines (root_cover name.now root))) }
{
    name.as_bytes().len() as u64 + number_length(root) + 13
}

/// How many bytes the covers of outputs have.
fn roots_length(names: &[Text], roots: &[u32]) -> Result<u64, NoMemory>
    ensures { IfOk result (λ count. count ≡ length (text_of (flat_map cover_lines (root_covers names.now roots.now)))) }
{
    let mut count = 0;
    let mut names_left = names;
    let mut roots_left = roots;
    'outputs: while let (Some((name, names_behind)), Some((root, roots_behind))) = (
        names_left.split_first(),
        roots_left.split_first(),
    ) {
        count = sum(count, root_length(name, *root))?;
        names_left = names_behind;
        roots_left = roots_behind;
    }
    Ok(count)
}

/// How many bytes the name and the interface have.
fn interface_length(lines: ModelLines<'_>) -> Result<u64, NoMemory>
    ensures { IfOk result (λ count. count ≡ length (text_of (title lines.entry.name.now ∷ interface_lines (shaped_model lines.entry)))) }
{
    let name = 8 + lines.name.as_bytes().len() as u64;
    let inputs = line_length(7, lines.inputs)?;
    let clocks = clocks_length(lines.clocks)?;
    let outputs = line_length(8, lines.outputs)?;
    let before = sum(name, inputs)?;
    let behind = sum(clocks, outputs)?;
    let count = sum(before, behind)?;
    Ok(count)
}

/// How many bytes the text of a model has.
pub fn text_length(lines: ModelLines<'_>) -> Result<u64, NoMemory>
    requires few { length lines.nodes.now ≤ 20000 }
    ensures { IfOk result (λ count. count ≡ length (model_text (shaped_model lines.entry))) }
{
    let interface = interface_length(lines)?;
    let nodes = nodes_length(lines.variables, lines.nodes)?;
    let roots = roots_length(lines.outputs, lines.roots)?;
    let covers = sum(nodes, roots)?;
    let before = sum(interface, covers)?;
    let constants = number_length(0) + number_length(1) + 23;
    let count = sum(before, constants)?;
    Ok(count)
}
