//! The structure of a model as a graph of its signals: an arc leads from each input of a cover to its output.

ghost use Rattle.std.specs.Prelude.{◌≡◌, ◌<◌, length, All, IfOk, OnOk};
ghost use Rattle.graphs.specs.Graphs.{AreInside, HasArcs};
ghost use Rattle.known_nets.specs.Placed.{Adds};
ghost use Rattle.port_links.specs.CoverGraphs.{IsCoverArc, IsInputArc};
ghost use Rattle.vrt_model.specs.FlatModels.{IsFlatModel};
ghost use Rattle.vrt_model.specs.WholeInstances.{CoverArc};

use known_nets::{lead, no_groups};
use std::alloc::Global;
use vrt_model::{Cover, FlatModel, NoMemory, Seq};

/// Adds the arcs from some inputs to an output.
fn lead_inputs(graph: &mut Vec<Seq<u32>>, inputs: &[u32], output: u32) -> Result<(), NoMemory>
    ensures { OnOk result (Adds (IsInputArc inputs.now output) graph.old.items graph.new.items) }
{
    for input in inputs {
        lead(graph, *input as usize, output as usize)?;
    }
    Ok(())
}

/// Adds the arcs of some covers.
fn lead_covers(graph: &mut Vec<Seq<u32>>, covers: &[Cover]) -> Result<(), NoMemory>
    ensures { OnOk result (Adds (IsCoverArc covers.now) graph.old.items graph.new.items) }
{
    for cover in covers {
        lead_inputs(graph, cover.inputs.as_slice(), cover.output)?;
    }
    Ok(())
}

/// For each signal of a model the signals from which arcs lead to it: the inputs of its cover.
pub(crate) fn cover_graph(alloc: Global, model: &FlatModel) -> Result<Vec<Seq<u32>>, NoMemory>
    requires { IsFlatModel model.now }
    ensures len { IfOk result (λ graph. length graph.items ≡ length model.now.signals) }
    ensures inside { IfOk result (λ graph. AreInside graph.items) }
    ensures arcs { IfOk result (λ graph. HasArcs (CoverArc model.now) graph.items) }
{
    let mut graph = no_groups(alloc, model.signals.len())?;
    lead_covers(&mut graph, model.covers.as_slice())?;
    Ok(graph)
}
