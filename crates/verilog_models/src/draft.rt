//! A module as it is read, and its model.

ghost use Rattle.std.specs.Prelude.{◌≡◌, map, IfOk, OnOk};
ghost use Rattle.rule_index.specs.Firsts.{IsEven};
ghost use Rattle.verilog_expression.specs.Grammar.{seen};
ghost use Rattle.verilog_models.specs.Drafts.{AddsEntry, IsDraft, begun};
ghost use Rattle.verilog_models.specs.Models.{model_of};
ghost use Rattle.verilog_source.specs.Modules.{Module};
ghost use Rattle.verilog_source.specs.Modules.Entry.{assigned, directed, gate, instance, listed};
ghost use Rattle.verilog_source.specs.Positions.{seen_tie};

use crate::gates::add_gate;
use crate::instances::add_instance;
use crate::interface::{Given, interface};
use crate::made::Made;
use crate::values::add_assigned;
use names::Names;
use rule_index::FirstValues;
use std::alloc::Global;
use verilog_expression::Expression;
use verilog_source::{Direction, PortTie};
use verilog_tokens::GateKind;
use vrt_model::{BlifModel, NoMemory, Seq, SubLine, Text};

/// A module that is read, with what its statements so far have made of it.
pub struct Draft {
    /// The line of its first token, from 1.
    pub line: u32,
    /// Its name.
    pub name: Text,
    /// The ports of its list, each once.
    pub ports: Names,
    /// The first direction that each name was given.
    pub directions: FirstValues<Given>,
    /// Its covers.
    pub made: Made,
    /// Its sub-models.
    pub subs: Seq<SubLine>,
}

/// By hand, so that letting go of one is a call.
impl Drop for Draft {
    fn drop(self) {
        let Draft {
            line: _line,
            name: _name,
            ports: _ports,
            directions: _directions,
            made: _made,
            subs: _subs,
        } = self;
    }
}

impl Draft {
    /// A module of which nothing is read but its name.
    pub fn new(alloc: Global, line: u32, name: Text) -> Self
        ensures { IsDraft (begun line name) result }
    {
        Draft {
            line,
            name,
            ports: Names::new(alloc),
            directions: FirstValues::new(alloc),
            made: Made {
                covers: Seq::new(alloc),
                count: 0,
            },
            subs: Seq::new(alloc),
        }
    }

    /// Adds a port of the list.
    pub fn add_listed(&mut self, name: &[u8]) -> Result<(), NoMemory>
        requires { IsEven self.old.directions }
        ensures { OnOk result (AddsEntry (listed name.now) self.old self.new) }
    {
        self.ports.number(name)?;
        Ok(())
    }

    /// Adds the direction of a name.
    pub fn add_directed(
        &mut self,
        line: u32,
        direction: Direction,
        name: &[u8],
    ) -> Result<(), NoMemory>
        requires { IsEven self.old.directions }
        ensures { OnOk result (AddsEntry (directed line direction name.now) self.old self.new) }
    {
        self.directions.note(name, Given { line, direction })
    }

    /// Adds a net with the value of an expression.
    pub fn add_assigned(
        &mut self,
        alloc: Global,
        line: u32,
        net: &[u8],
        value: &Expression,
    ) -> Result<(), NoMemory>
        requires { IsEven self.old.directions }
        ensures { OnOk result (AddsEntry (assigned line net.now (seen value.now)) self.old self.new) }
    {
        add_assigned(alloc, &mut self.made, line, net, value)
    }

    /// Adds a gate.
    pub fn add_gate(
        &mut self,
        alloc: Global,
        line: u32,
        kind: GateKind,
        outputs: &[Text],
        inputs: &[Expression],
    ) -> Result<(), NoMemory>
        requires { IsEven self.old.directions }
        ensures { OnOk result (AddsEntry (gate line kind outputs.now (map seen inputs.now)) self.old self.new) }
    {
        add_gate(alloc, &mut self.made, line, kind, outputs, inputs)
    }

    /// Adds an instance of a module.
    pub fn add_instance(
        &mut self,
        alloc: Global,
        line: u32,
        model: &[u8],
        ties: &[PortTie],
    ) -> Result<(), NoMemory>
        requires { IsEven self.old.directions }
        ensures { OnOk result (AddsEntry (instance line model.now (map seen_tie ties.now)) self.old self.new) }
    {
        let sub = add_instance(alloc, &mut self.made, line, model, ties)?;
        self.subs.append(sub)
    }

    /// The model of the module.
    pub fn finish(self, alloc: Global) -> Result<BlifModel, NoMemory>
        ensures { (m : Module) → IsDraft m self → IfOk result (λ model. model ≡ model_of m) }
    {
        let Draft {
            line,
            name,
            ports,
            directions,
            made,
            subs,
        } = self;
        let names = ports.to_texts(alloc)?;
        let listed = names.as_slice();
        let (inputs, input_lines) = interface(alloc, listed, &directions, Direction::Inputs)?;
        let (outputs, output_lines) = interface(alloc, listed, &directions, Direction::Outputs)?;
        Ok(BlifModel {
            line,
            name,
            inputs,
            input_lines,
            clocks: Seq::new(alloc),
            clock_lines: Seq::new(alloc),
            outputs,
            output_lines,
            covers: made.into_covers(),
            latches: Seq::new(alloc),
            subs,
            exdc: Seq::new(alloc),
        })
    }
}
