//! The don't-care bits of a model's signals.

ghost use Rattle.std.specs.Prelude.{◌≡◌, ◌<◌, ℕ, All, IfOk, None, get_or, length, replicate};
ghost use Rattle.phase_ports.specs.DontCares.{AreDontCareBits, bit_of, bit_with};
ghost use Rattle.vrt_model.specs.FlatModels.{IsFlatModel};
ghost use Rattle.vrt_model.specs.declared.flat_model.DontCare.{DontCare as DontCareValue};

use std::alloc::Global;
use vrt_model::{DontCare, FlatModel, NoMemory};

/// For each signal no bit.
fn no_bits(alloc: Global, count: usize) -> Result<Vec<Option<u32>>, NoMemory>
    ensures { IfOk result (λ bits. bits.items ≡ replicate count None) }
{
    let mut bits = Vec::new(alloc);
    match bits.resize(count, None) {
        Ok(()) => Ok(bits),
        Err(_) => Err(NoMemory),
    }
}

/// Puts the don't-care bit of an output.
fn put_bit(bits: &mut Vec<Option<u32>>, dontcare: DontCare)
    requires { dontcare.output < length bits.old.items }
    ensures len { length bits.new.items ≡ length bits.old.items }
    ensures is { (n : ℕ) → get_or bits.new.items n None ≡ bit_with dontcare n (get_or bits.old.items n None) }
{
    bits[dontcare.output as usize] = Some(dontcare.bit);
}

/// Puts the don't-care bits of outputs.
fn put_bits(bits: &mut Vec<Option<u32>>, dontcares: &[DontCare])
    requires { All (λ (d : DontCareValue). d.output < length bits.old.items) dontcares.now }
    ensures { (n : ℕ) → get_or bits.new.items n None ≡ bit_of dontcares.now n (get_or bits.old.items n None) }
{
    let mut rest = dontcares;
    'dontcares: while let Some((dontcare, behind)) = rest.split_first() {
        put_bit(bits, *dontcare);
        rest = behind;
    }
}

/// The number of the don't-care bit of each signal of a model that has one, in a table by signal. The table of a model without a
/// network is empty, and a signal behind its end has none.
pub fn dontcare_bits(alloc: Global, model: &FlatModel) -> Result<Vec<Option<u32>>, NoMemory>
    requires { IsFlatModel model.now }
    ensures { IfOk result (λ bits. AreDontCareBits model.now bits.items) }
{
    if model.dontcares.is_empty() {
        return Ok(Vec::new(alloc));
    }
    let mut bits = no_bits(alloc, model.signals.len())?;
    put_bits(&mut bits, model.dontcares.as_slice());
    Ok(bits)
}

/// The don't-care bit of a signal, if it has one.
pub(crate) fn bit_of(bits: &[Option<u32>], signal: u32) -> Option<u32>
    ensures { result ≡ get_or bits.now signal None }
{
    match bits.get(signal as usize) {
        Some(bit) => *bit,
        None => None,
    }
}
