//! The bits with which a replay begins: those of the known nets and of the inputs.

ghost use Rattle.std.specs.Prelude.{◌≡◌, ℕ, ◌<◌, ◌+◌, ◌++◌, ◌∷◌, [], Some, cond, length, slice_get, IfOk, OnOk};
ghost use Rattle.vrt_model.specs.Variables.{is_input};
ghost use Rattle.witness.specs.Settling.{is_input_at, start_of};

use known_nets::known_bit;
use plain_paths::bit;
use std::alloc::Global;
use vrt_model::{Circuit, FlatNet, NetKind, NoMemory};

/// Whether a net is an input.
fn is_input_net(net: &FlatNet) -> bool
    ensures { result ≡ is_input net.now.kind }
{
    match net.kind {
        NetKind::Input => true,
        NetKind::Supply(_) => false,
        NetKind::Clock(_) => false,
        NetKind::Plain => false,
    }
}

/// Whether the net of a number is there and an input.
fn is_input(circuit: &Circuit, net: usize) -> bool
    ensures { result ≡ is_input_at circuit.now net }
{
    match circuit.nets.get(net) {
        Some(net) => is_input_net(net),
        None => false,
    }
}

/// The bit of an input, and of another net that which is known.
fn start_bit(input: bool, own: bool, known: Option<bool>) -> Option<bool>
    ensures { result ≡ cond input (Some own) known }
{
    if input { Some(own) } else { known }
}

/// The place of the next input, if this net has that place where it is one.
fn next_place(input: bool, place: usize, bound: usize) -> usize
    requires { place < bound }
    ensures { result ≡ cond input (place + 1) place }
{
    if input { place + 1 } else { place }
}

/// Adds a bit at the end.
fn append(bits: &mut Vec<Option<bool>>, bit: Option<bool>) -> Result<(), NoMemory>
    ensures { OnOk result (bits.new.items ≡ bits.old.items ++ bit ∷ []) }
{
    match bits.push(bit) {
        Ok(()) => Ok(()),
        Err(_) => Err(NoMemory),
    }
}

/// The bits of the known nets by a table, and of the inputs by a list of them in the order of their nets.
pub(crate) fn start_bits(
    alloc: Global,
    circuit: &Circuit,
    known: &[Option<bool>],
    inputs: &[bool],
) -> Result<Vec<Option<bool>>, NoMemory>
    ensures len { IfOk result (λ bits. length bits.items ≡ length circuit.now.nets) }
    ensures each { IfOk result (λ bits. (n : ℕ) → n < length circuit.now.nets → slice_get bits.items n ≡ Some (start_of circuit.now known.now inputs.now n)) }
{
    let count = circuit.nets.len();
    let mut bits = Vec::new(alloc);
    let mut place = 0;
    for net in 0..count {
        let input = is_input(circuit, net);
        let own = start_bit(input, bit(inputs, place), known_bit(known, net));
        append(&mut bits, own)?;
        place = next_place(input, place, count);
    }
    Ok(bits)
}
