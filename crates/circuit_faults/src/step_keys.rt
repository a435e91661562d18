//! Keys by which parts and instances stand in their order: a rank, 0 for a part and 1 for an instance, and a number.

ghost use Rattle.std.specs.Prelude.{◌≡◌, ◌++◌, ◌∷◌, [], All, Some, length, IfOk, OnOk};
ghost use Rattle.circuit_faults.specs.Keys.{AreSorted, HasAllPorts, instance_key, instance_keys, key_of, part_keys, part_rank};
ghost use Rattle.vrt_model.specs.Comparison.{cell_at};

use channel_parts::Part;
use constraints::{is_constrained, named_rank};
use std::alloc::Global;
use vrt_model::{Circuit, Design, FlatInstance, NoMemory, Rules};

/// A circuit in a phase, and the rank of each net.
#[derive(Clone, Copy)]
pub(crate) struct RankedCircuit<'a> {
    /// The netlist that the cells of the circuit's instances are of.
    pub(crate) design: &'a Design,
    /// The rules.
    pub(crate) rules: &'a Rules,
    /// The circuit.
    pub(crate) circuit: &'a Circuit,
    /// The phase, by its number.
    pub(crate) phase: u32,
    /// The rank of each net.
    pub(crate) ranks: &'a [usize],
}

/// Adds a key at the end.
fn append(
    keys: &mut Vec<((usize, usize), usize)>,
    key: ((usize, usize), usize),
) -> Result<(), NoMemory>
    ensures { OnOk result (keys.new.items ≡ keys.old.items ++ key ∷ []) }
{
    match keys.push(key) {
        Ok(()) => Ok(()),
        Err(_) => Err(NoMemory),
    }
}

/// The rank of a part, 0 where there is none of this number.
fn part_rank(parts: &[Part], number: usize) -> usize
    ensures { result ≡ part_rank parts.now number }
{
    match parts.get(number) {
        Some(part) => part.rank as usize,
        None => 0,
    }
}

/// The keys of the parts.
fn part_keys(alloc: Global, parts: &[Part]) -> Result<Vec<((usize, usize), usize)>, NoMemory>
    ensures { IfOk result (λ keys. keys.items ≡ part_keys parts.now (length parts.now)) }
{
    let mut keys = Vec::new(alloc);
    for number in 0..parts.len() {
        let rank = part_rank(parts, number);
        append(&mut keys, ((rank, 0), number))?;
    }
    Ok(keys)
}

/// Adds the key of an instance, where its cell has a constraint.
fn add_key(
    keys: &mut Vec<((usize, usize), usize)>,
    ranked: RankedCircuit<'_>,
    instance: &FlatInstance,
    at: usize,
) -> Result<(), NoMemory>
    requires { length instance.now.ports ≡ length (cell_at ranked.design.now instance.now.cell).ports }
    ensures { OnOk result (keys.new.items ≡ keys.old.items ++ key_of ranked.entry.design.now ranked.entry.rules.now ranked.entry.phase ranked.entry.ranks.now at (Some instance.now)) }
{
    if !is_constrained(ranked.design, ranked.rules, instance, ranked.phase) {
        return Ok(());
    }
    let rank = named_rank(
        ranked.design,
        ranked.rules,
        instance,
        ranked.phase,
        ranked.ranks,
    );
    append(keys, ((rank, 1), at))
}

/// Adds the key of the instance of a number, where there is one and its cell has a constraint.
fn add_instance(
    keys: &mut Vec<((usize, usize), usize)>,
    ranked: RankedCircuit<'_>,
    at: usize,
) -> Result<(), NoMemory>
    requires { All (HasAllPorts ranked.design.now) ranked.circuit.now.instances }
    ensures { OnOk result (keys.new.items ≡ keys.old.items ++ instance_key ranked.entry.design.now ranked.entry.rules.now ranked.entry.circuit.now ranked.entry.phase ranked.entry.ranks.now at) }
{
    match ranked.circuit.instances.get(at) {
        Some(instance) => add_key(keys, ranked, instance, at),
        None => Ok(()),
    }
}

/// Adds the keys of the instances whose cells have constraints.
fn add_instances(
    keys: &mut Vec<((usize, usize), usize)>,
    ranked: RankedCircuit<'_>,
) -> Result<(), NoMemory>
    requires { All (HasAllPorts ranked.design.now) ranked.circuit.now.instances }
    ensures { OnOk result (keys.new.items ≡ keys.old.items ++ instance_keys ranked.entry.design.now ranked.entry.rules.now ranked.entry.circuit.now ranked.entry.phase ranked.entry.ranks.now (length ranked.entry.circuit.now.instances)) }
{
    for at in 0..ranked.circuit.instances.len() {
        add_instance(keys, ranked, at)?;
    }
    Ok(())
}

/// The keys of the parts and of the instances whose cells have constraints, sorted.
pub(crate) fn sorted_keys(
    alloc: Global,
    ranked: RankedCircuit<'_>,
    parts: &[Part],
) -> Result<Vec<((usize, usize), usize)>, NoMemory>
    requires { All (HasAllPorts ranked.design.now) ranked.circuit.now.instances }
    ensures { IfOk result (λ keys. AreSorted ranked.entry.design.now ranked.entry.rules.now ranked.entry.circuit.now ranked.entry.phase parts.now ranked.entry.ranks.now keys.items) }
{
    let mut keys = part_keys(alloc, parts)?;
    add_instances(&mut keys, ranked)?;
    match keys.sort() {
        Ok(()) => Ok(keys),
        Err(_) => Err(NoMemory),
    }
}
