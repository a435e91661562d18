//! The list.

ghost use Rattle.std.specs.Prelude.{◌≡◌, ◌<◌, ◌≤◌, All, IfOk, OnOk, length, map, replicate, slice_set};
ghost use Rattle.bdd_core.specs.Store.{IsLive};
ghost use Rattle.diagram_lists.specs.Listed.{IsNodeList, functions_of, node_of, number_at};
ghost use Rattle.diagram_lists.specs.Numbered.{HasAdded, HasListed, IsNumbered};
ghost use Rattle.written_models.specs.Functions.{with_all_nodes};

use bdd_core::{H, Store};
use std::alloc::Global;
use vrt_model::NoMemory;

/// Nodes of a store, and numbers of the store's places.
pub struct NodeList {
    /// The nodes, as handles: those below the first handle come first, and each behind its branches.
    pub nodes: Vec<H>,
    /// For each place of the store a number: 0 and 1 of the two constants, from 2 on those of the nodes in the order of the list, and 0 of any
    /// other place.
    pub numbers: Vec<u32>,
}

/// By hand, so that letting go of one is a call.
impl Drop for NodeList {
    fn drop(self) {
        let NodeList {
            nodes: _nodes,
            numbers: _numbers,
        } = self;
    }
}

/// Numbers of so many places, of which the constant 1 alone has one.
fn first_numbers(alloc: Global, count: usize) -> Result<Vec<u32>, NoMemory>
    requires { 2 ≤ count }
    ensures { IfOk result (λ numbers. numbers.items ≡ slice_set (replicate count 0) 1 1) }
{
    match vec![in alloc; 0; count] {
        Ok(mut numbers) => {
            numbers[1] = 1;
            Ok(numbers)
        }
        Err(_) => Err(NoMemory),
    }
}

/// Adds a node that is not there, with the next number.
fn add(list: &mut NodeList, f: H) -> Result<(), NoMemory>
    requires numbered { IsNumbered (length list.old.numbers.items) list.old }
    requires inner { 2 ≤ f.0 }
    requires within { f.0 < length list.old.numbers.items }
    requires other { number_at list.old f.0 ≡ 0 }
    ensures { OnOk result (HasAdded f list.old list.new) }
{
    list.numbers[f.0 as usize] = list.nodes.len() as u32 + 2;
    match list.nodes.push(f) {
        Ok(()) => Ok(()),
        Err(_) => Err(NoMemory),
    }
}

/// Adds the nodes below a handle that are not there. It goes as deep as there are variables.
fn visit(store: &Store, f: H, list: &mut NodeList) -> Result<(), NoMemory>
    requires live { IsLive store.now f }
    requires numbered { IsNumbered (length store.now.nodes) list.old }
    ensures { OnOk result (HasListed store.now f list.old list.new) }
{
    store.sound();
    let Some(n) = store.node(f) else {
        return Ok(());
    };
    if list.numbers[f.0 as usize] != 0 {
        return Ok(());
    }
    visit(store, H(n.lo), list)?;
    visit(store, H(n.hi), list)?;
    add(list, f)
}

/// Adds the nodes below some handles that are not there, one handle after the other.
fn visit_all(store: &Store, handles: &[H], list: &mut NodeList) -> Result<(), NoMemory>
    requires live { All (IsLive store.now) handles.now }
    requires numbered { IsNumbered (length store.now.nodes) list.old }
    ensures numbered { OnOk result (IsNumbered (length store.now.nodes) list.new) }
    ensures nodes { OnOk result (map (node_of store.now) list.new.nodes.items ≡ with_all_nodes store.now.vars (functions_of store.now handles.now) (map (node_of store.now) list.old.nodes.items)) }
{
    for f in handles {
        visit(store, *f, list)?;
    }
    Ok(())
}

/// The nodes below some handles, and their numbers. It takes steps in the number of these nodes and of the handles, and memory for a number at
/// each place of the store.
pub fn list_nodes(alloc: Global, store: &Store, handles: &[H]) -> Result<NodeList, NoMemory>
    requires { All (IsLive store.now) handles.now }
    ensures { IfOk result (IsNodeList store.now handles.now) }
{
    store.sound();
    let numbers = first_numbers(alloc, store.node_count() as usize)?;
    let mut list = NodeList {
        nodes: Vec::new(alloc),
        numbers,
    };
    visit_all(store, handles, &mut list)?;
    Ok(list)
}
