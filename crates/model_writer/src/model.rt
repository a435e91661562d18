//! What is written.

use vrt_model::Text;

/// A node of a diagram, by numbers: 0 and 1 are the constants, and the nodes follow from 2 on in their order.
#[derive(Clone, Copy)]
pub struct NodeLine {
    /// Its variable, by its place among the variables.
    pub variable: u32,
    /// The number of what it is where its variable is 0.
    pub low: u32,
    /// The number of what it is where its variable is 1.
    pub high: u32,
}

/// A model without state: its name and its interface, and the diagrams of its outputs.
#[derive(Clone, Copy)]
pub struct ModelLines<'a> {
    /// The name of the model.
    pub name: &'a Text,
    /// The signals of `.inputs`, in their order.
    pub inputs: &'a [Text],
    /// The signals of `.clock` that are not among these.
    pub clocks: &'a [Text],
    /// The signals of `.outputs`.
    pub outputs: &'a [Text],
    /// The signals of the variables, in the order of the variables.
    pub variables: &'a [Text],
    /// The nodes of all outputs, each behind those that it leads to. The first has the number 2.
    pub nodes: &'a [NodeLine],
    /// For each output the number of its function.
    pub roots: &'a [u32],
}
