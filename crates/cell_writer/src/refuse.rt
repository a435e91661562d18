//! Refusals by their causes.

ghost use Rattle.std.specs.Prelude.{◌≡◌, ℕ, None, Some};
ghost use Rattle.cell_writer.specs.Refused.{first_clock, first_hold, first_refused};
ghost use Rattle.cell_writer.specs.Written.{WriteGives};
ghost use Rattle.vrt_model.specs.Comparison.{Comparison};
ghost use Rattle.vrt_model.specs.declared.blif.Blif.{Blif as BlifValue};
ghost use Rattle.vrt_model.specs.declared.blif.BlifModel.{BlifModel as ModelValue};

use crate::refusal::WriteRefusal;
use std::alloc::Global;
use vrt_model::Text;

/// Refused for a hold at a net.
pub(crate) fn refuse_hold(alloc: Global, net: &Text) -> Result<Text, WriteRefusal>
    ensures { (k : Comparison) (blif : BlifValue) (b : ModelValue) (budget : ℕ) → first_hold k.circuit ≡ Some net.now → WriteGives k blif b budget result }
{
    match Text::from_bytes(alloc, net.as_bytes()) {
        Ok(net) => Err(WriteRefusal::Hold { net }),
        Err(_) => Err(WriteRefusal::NoMemory),
    }
}

/// Refused for a port that carries a clock.
pub(crate) fn refuse_clock(alloc: Global, port: &Text) -> Result<Text, WriteRefusal>
    ensures { (k : Comparison) (blif : BlifValue) (b : ModelValue) (budget : ℕ) → first_hold k.circuit ≡ None → first_clock k ≡ Some port.now → WriteGives k blif b budget result }
{
    match Text::from_bytes(alloc, port.as_bytes()) {
        Ok(port) => Err(WriteRefusal::Clock { port }),
        Err(_) => Err(WriteRefusal::NoMemory),
    }
}

/// Refused for a name.
pub(crate) fn refuse_name(alloc: Global, name: &Text) -> Result<Text, WriteRefusal>
    ensures { (k : Comparison) (blif : BlifValue) (b : ModelValue) (budget : ℕ) → first_hold k.circuit ≡ None → first_clock k ≡ None → first_refused b ≡ Some name.now → WriteGives k blif b budget result }
{
    match Text::from_bytes(alloc, name.as_bytes()) {
        Ok(name) => Err(WriteRefusal::Name { name }),
        Err(_) => Err(WriteRefusal::NoMemory),
    }
}
