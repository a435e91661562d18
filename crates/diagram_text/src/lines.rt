//! The nodes below some handles by their numbers.

ghost use Rattle.std.specs.Prelude.{◌≡◌, ◌<◌, ◌++◌, ◌∷◌, [], All, IfOk, OnOk, length, map};
ghost use Rattle.bdd_core.specs.Store.{IsLive};
ghost use Rattle.diagram_lists.specs.Listed.{number_at};
ghost use Rattle.diagram_text.specs.Lines.{IsInner, line_at, root_at};

use bdd_core::{H, Store};
use diagram_lists::NodeList;
use model_writer::NodeLine;
use std::alloc::Global;
use vrt_model::NoMemory;

/// The number of a place of a store.
fn number_of(list: &NodeList, place: u32) -> u32
    requires { place < length list.now.numbers.items }
    ensures { result ≡ number_at list.now place }
{
    list.numbers[place as usize]
}

/// A node by its numbers.
fn line_of(store: &Store, list: &NodeList, h: H) -> NodeLine
    requires inner { IsInner store.now h }
    requires places { length list.now.numbers.items ≡ length store.now.nodes }
    ensures { result ≡ line_at store.now list.now h }
{
    store.sound();
    match store.node(h) {
        Some(n) => NodeLine {
            variable: n.var,
            low: number_of(list, n.lo),
            high: number_of(list, n.hi),
        },
        None => NodeLine {
            variable: 0,
            low: 0,
            high: 0,
        },
    }
}

/// Adds a line.
fn add_line(lines: &mut Vec<NodeLine>, line: NodeLine) -> Result<(), NoMemory>
    ensures { OnOk result (lines.new.items ≡ lines.old.items ++ line ∷ []) }
{
    match lines.push(line) {
        Ok(()) => Ok(()),
        Err(_) => Err(NoMemory),
    }
}

/// Adds nodes by their numbers.
fn add_lines(
    store: &Store,
    list: &NodeList,
    nodes: &[H],
    lines: &mut Vec<NodeLine>,
) -> Result<(), NoMemory>
    requires inner { All (IsInner store.now) nodes.now }
    requires places { length list.now.numbers.items ≡ length store.now.nodes }
    ensures { OnOk result (lines.new.items ≡ lines.old.items ++ map (line_at store.now list.now) nodes.now) }
{
    for h in nodes {
        add_line(lines, line_of(store, list, *h))?;
    }
    Ok(())
}

/// The nodes of a list by their numbers.
pub(crate) fn node_lines(
    alloc: Global,
    store: &Store,
    list: &NodeList,
) -> Result<Vec<NodeLine>, NoMemory>
    requires inner { All (IsInner store.now) list.now.nodes.items }
    requires places { length list.now.numbers.items ≡ length store.now.nodes }
    ensures { IfOk result (λ lines. lines.items ≡ map (line_at store.now list.now) list.now.nodes.items) }
{
    let mut lines = Vec::new(alloc);
    add_lines(store, list, list.nodes.as_slice(), &mut lines)?;
    Ok(lines)
}

/// Adds a number.
fn add_root(roots: &mut Vec<u32>, root: u32) -> Result<(), NoMemory>
    ensures { OnOk result (roots.new.items ≡ roots.old.items ++ root ∷ []) }
{
    match roots.push(root) {
        Ok(()) => Ok(()),
        Err(_) => Err(NoMemory),
    }
}

/// Adds the numbers of handles.
fn add_roots(
    store: &Store,
    list: &NodeList,
    handles: &[H],
    roots: &mut Vec<u32>,
) -> Result<(), NoMemory>
    requires live { All (IsLive store.now) handles.now }
    requires places { length list.now.numbers.items ≡ length store.now.nodes }
    ensures { OnOk result (roots.new.items ≡ roots.old.items ++ map (root_at list.now) handles.now) }
{
    let _nodes = store;
    for h in handles {
        add_root(roots, number_of(list, h.0))?;
    }
    Ok(())
}

/// The numbers of handles.
pub(crate) fn root_numbers(
    alloc: Global,
    store: &Store,
    list: &NodeList,
    handles: &[H],
) -> Result<Vec<u32>, NoMemory>
    requires live { All (IsLive store.now) handles.now }
    requires places { length list.now.numbers.items ≡ length store.now.nodes }
    ensures { IfOk result (λ roots. roots.items ≡ map (root_at list.now) handles.now) }
{
    let mut roots = Vec::new(alloc);
    add_roots(store, list, handles, &mut roots)?;
    Ok(roots)
}
