//! The covers of gates.

ghost use Rattle.std.specs.Prelude.{◌≡◌, ◌+◌, ◌++◌, ◌∷◌, [], flat_map, map, IfOk, OnOk};
ghost use Rattle.verilog_expression.specs.Grammar.{seen};
ghost use Rattle.verilog_models.specs.Covers.{cover_of, own_name};
ghost use Rattle.verilog_models.specs.Gates.{chain, gate_covers, gate_own, last_of_one, last_of_two, links, output_covers, parity_covers};
ghost use Rattle.verilog_models.specs.declared.functions.Function.TheVariants.{Xor};

use crate::functions::{Function, one, two};
use crate::made::{Made, further, name_of_own};
use crate::values::add_values;
use std::alloc::Global;
use verilog_expression::Expression;
use verilog_tokens::GateKind;
use vrt_model::{NoMemory, Seq, Text};

/// The function of a chain of one signal.
fn last_single(complements: bool) -> Function
    ensures { result ≡ last_of_one complements }
{
    if complements {
        return Function::Not;
    }
    Function::Same
}

/// The function of the last link of a chain.
fn last_pair(complements: bool) -> Function
    ensures { result ≡ last_of_two complements }
{
    if complements {
        return Function::Xnor;
    }
    Function::Xor
}

/// Adds the cover of a function of two signals.
fn add_pair(
    alloc: Global,
    made: &mut Made,
    line: u32,
    function: Function,
    left: Text,
    right: &Text,
    output: Text,
) -> Result<(), NoMemory>
    ensures covers { OnOk result (made.new.covers ≡ made.old.covers ++ cover_of line function (left ∷ right.now ∷ []) output ∷ []) }
    ensures count { made.new.count ≡ made.old.count }
{
    let second = Text::from_bytes(alloc, right.as_bytes())?;
    let inputs = two(alloc, left, second)?;
    made.add(alloc, line, function, inputs, output)
}

/// Adds a link of a chain with an own signal of this number, and answers its name.
fn add_link(
    alloc: Global,
    made: &mut Made,
    line: u32,
    number: u64,
    left: Text,
    right: &Text,
) -> Result<Text, NoMemory>
    ensures covers { OnOk result (made.new.covers ≡ made.old.covers ++ cover_of line Xor (left ∷ right.now ∷ []) (own_name number) ∷ []) }
    ensures count { made.new.count ≡ made.old.count }
    ensures name { IfOk result (λ name. name ≡ own_name number) }
{
    let output = name_of_own(alloc, number)?;
    add_pair(alloc, made, line, Function::Xor, left, right, output)?;
    name_of_own(alloc, number)
}

/// Adds a chain of exclusive ors behind a signal, for an output. Its own signals are numbered behind those that were made.
fn add_chain(
    alloc: Global,
    made: &mut Made,
    line: u32,
    complements: bool,
    first: &Text,
    rest: &[Text],
    output: Text,
) -> Result<(), NoMemory>
    ensures covers { OnOk result (made.new.covers ≡ made.old.covers ++ chain line made.old.count complements first.now rest.now output) }
    ensures count { made.new.count ≡ made.old.count }
{
    let mut number = made.count;
    let mut left = Text::from_bytes(alloc, first.as_bytes())?;
    let mut rest = rest;
    'links: while let Some((right, behind)) = rest.split_first() {
        if behind.is_empty() {
            return add_pair(
                alloc,
                made,
                line,
                last_pair(complements),
                left,
                right,
                output,
            );
        }
        left = add_link(alloc, made, line, number, left, right)?;
        number = further(number, 1)?;
        rest = behind;
    }
    let inputs = one(alloc, left)?;
    made.add(alloc, line, last_single(complements), inputs, output)
}

/// Adds the exclusive or of all signals, or its complement, for an output.
fn add_parity(
    alloc: Global,
    made: &mut Made,
    line: u32,
    complements: bool,
    signals: &[Text],
    output: Text,
) -> Result<(), NoMemory>
    ensures covers { OnOk result (made.new.covers ≡ made.old.covers ++ parity_covers line made.old.count complements signals.now output) }
    ensures count { made.new.count ≡ made.old.count }
{
    match signals.split_first() {
        Some((first, rest)) => add_chain(alloc, made, line, complements, first, rest, output),
        None => Ok(()),
    }
}

/// Adds the cover of a function of all signals, for an output.
fn add_single(
    alloc: Global,
    made: &mut Made,
    line: u32,
    function: Function,
    signals: &[Text],
    output: Text,
) -> Result<(), NoMemory>
    ensures covers { OnOk result (made.new.covers ≡ made.old.covers ++ cover_of line function signals.now output ∷ []) }
    ensures count { made.new.count ≡ made.old.count }
{
    let mut inputs = Seq::new(alloc);
    for signal in signals {
        let input = Text::from_bytes(alloc, signal.as_bytes())?;
        inputs.append(input)?;
    }
    made.add(alloc, line, function, inputs, output)
}

/// Adds the covers of a gate of these signals, for an output.
fn add_output(
    alloc: Global,
    made: &mut Made,
    line: u32,
    kind: GateKind,
    signals: &[Text],
    output: &Text,
) -> Result<(), NoMemory>
    ensures covers { OnOk result (made.new.covers ≡ made.old.covers ++ output_covers line made.old.count kind signals.now output.now) }
    ensures count { made.new.count ≡ made.old.count }
{
    let output = Text::from_bytes(alloc, output.as_bytes())?;
    match kind {
        GateKind::And => add_single(alloc, made, line, Function::And, signals, output),
        GateKind::Nand => add_single(alloc, made, line, Function::Nand, signals, output),
        GateKind::Or => add_single(alloc, made, line, Function::Or, signals, output),
        GateKind::Nor => add_single(alloc, made, line, Function::Nor, signals, output),
        GateKind::Xor => add_parity(alloc, made, line, false, signals, output),
        GateKind::Xnor => add_parity(alloc, made, line, true, signals, output),
        GateKind::Buf => add_single(alloc, made, line, Function::Same, signals, output),
        GateKind::Not => add_single(alloc, made, line, Function::Not, signals, output),
    }
}

/// How many own signals the chain of a gate has.
fn count_links(kind: GateKind, inputs: usize) -> u64
    ensures { result ≡ links kind inputs }
{
    match kind {
        GateKind::Xor => inputs.saturating_sub(2) as u64,
        GateKind::Xnor => inputs.saturating_sub(2) as u64,
        _ => 0,
    }
}

/// Adds the covers of a gate of these signals, for each output.
fn add_outputs(
    alloc: Global,
    made: &mut Made,
    line: u32,
    kind: GateKind,
    signals: &[Text],
    outputs: &[Text],
) -> Result<(), NoMemory>
    ensures covers { OnOk result (made.new.covers ≡ made.old.covers ++ flat_map (output_covers line made.old.count kind signals.now) outputs.now) }
    ensures count { made.new.count ≡ made.old.count }
{
    let mut left = outputs;
    'outputs: while let Some((output, behind)) = left.split_first() {
        add_output(alloc, made, line, kind, signals, output)?;
        left = behind;
    }
    Ok(())
}

/// Adds the covers of a gate: those of its inputs from the left, then its own, for each output.
pub fn add_gate(
    alloc: Global,
    made: &mut Made,
    line: u32,
    kind: GateKind,
    outputs: &[Text],
    inputs: &[Expression],
) -> Result<(), NoMemory>
    ensures covers { OnOk result (made.new.covers ≡ made.old.covers ++ gate_covers line made.old.count kind outputs.now (map seen inputs.now)) }
    ensures count { OnOk result (made.new.count ≡ made.old.count + gate_own kind (map seen inputs.now)) }
{
    let signals = add_values(alloc, made, line, inputs)?;
    add_outputs(alloc, made, line, kind, signals.as_slice(), outputs)?;
    made.count = further(made.count, count_links(kind, inputs.len()))?;
    Ok(())
}
