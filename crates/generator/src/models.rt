//! The models of the cells.

ghost use Rattle.std.specs.Prelude.{◌≡◌, ◌++◌, OnOk};
ghost use Rattle.generator.specs.Parts.{inv_model, nand2_model, fa_model, mux2_model, place_models};
ghost use Rattle.generator.specs.Texts.{top_model, blif_text};

use crate::forms::add_each;
use crate::netlist::{operand_ports, output_ports};
use vrt_model::{NoMemory, Text};

/// The model of the inverter.
#[tactic(auto, unfolding(crate::specs::Parts::inv_model))]
fn inv() -> &'static [u8]
    ensures { result.now ≡ inv_model }
{
    b".model inv\n\
    .inputs a\n\
    .outputs y\n\
    .names a y\n\
    0 1\n\
    .end\n"
}

/// The model of the gate of two inputs.
#[tactic(auto, unfolding(crate::specs::Parts::nand2_model))]
fn nand2() -> &'static [u8]
    ensures { result.now ≡ nand2_model }
{
    b".model nand2\n\
    .inputs a b\n\
    .outputs y\n\
    .names a b y\n\
    11 0\n\
    .end\n"
}

/// The model of the adder of three bits.
#[tactic(auto, unfolding(crate::specs::Parts::fa_model))]
fn fa() -> &'static [u8]
    ensures { result.now ≡ fa_model }
{
    b".model fa\n\
    .inputs a b c\n\
    .outputs s co\n\
    .names a b c s\n\
    100 1\n\
    010 1\n\
    001 1\n\
    111 1\n\
    .names a b c co\n\
    11- 1\n\
    1-1 1\n\
    -11 1\n\
    .end\n"
}

/// The model of the multiplexer.
#[tactic(auto, unfolding(crate::specs::Parts::mux2_model))]
fn mux2() -> &'static [u8]
    ensures { result.now ≡ mux2_model }
{
    b".model mux2\n\
    .inputs s a b\n\
    .outputs y\n\
    .names s a b y\n\
    01- 1\n\
    1-1 1\n\
    .end\n"
}

/// The cards of a place in `top`.
#[tactic(auto, unfolding(crate::specs::Parts::place_models))]
fn cards() -> &'static [u8]
    ensures { result.now ≡ place_models }
{
    b".subckt fa a=a% b=b% c=c% s=t% co=c+\n\
    .subckt mux2 s=s a=b% b=t% y=y%\n"
}

/// Adds the model `top`.
#[tactic(auto, unfolding(crate::specs::Texts::top_model))]
fn add_top(text: &mut Text, size: u32) -> Result<(), NoMemory>
    ensures { OnOk result (text.new ≡ text.old ++ top_model size) }
{
    text.extend(b".model top\n.inputs s c0")?;
    add_each(text, operand_ports(), size)?;
    text.extend(b"\n.outputs")?;
    add_each(text, output_ports(), size)?;
    text.extend(b"\n")?;
    add_each(text, cards(), size)?;
    text.extend(b".end\n")?;
    Ok(())
}

/// Adds all models.
#[tactic(auto, unfolding(crate::specs::Texts::blif_text))]
pub fn add_models(text: &mut Text, size: u32) -> Result<(), NoMemory>
    ensures { OnOk result (text.new ≡ text.old ++ blif_text size) }
{
    text.extend(inv())?;
    text.extend(nand2())?;
    text.extend(fa())?;
    text.extend(mux2())?;
    add_top(text, size)?;
    Ok(())
}
