//! The cells of the netlist.

ghost use Rattle.std.specs.Prelude.{◌≡◌, ◌++◌, OnOk};
ghost use Rattle.generator.specs.Parts.{inv_cell, nand2_cell, fa_cell, mux2_cell, operands, outputs, place_cards};
ghost use Rattle.generator.specs.Texts.{top_cell, spice_text};

use crate::forms::{add_each, add_number};
use vrt_model::{NoMemory, Text};

/// The inverter.
#[tactic(auto, unfolding(crate::specs::Parts::inv_cell))]
fn inv() -> &'static [u8]
    ensures { result.now ≡ inv_cell }
{
    b".subckt inv a y\n\
    m1 y a vdd vdd p\n\
    m2 y a gnd gnd n\n\
    .ends\n"
}

/// The gate of two inputs.
#[tactic(auto, unfolding(crate::specs::Parts::nand2_cell))]
fn nand2() -> &'static [u8]
    ensures { result.now ≡ nand2_cell }
{
    b".subckt nand2 a b y\n\
    m1 y a vdd vdd p\n\
    m2 y b vdd vdd p\n\
    m3 y a m gnd n\n\
    m4 m b gnd gnd n\n\
    .ends\n"
}

/// The adder of three bits.
#[tactic(auto, unfolding(crate::specs::Parts::fa_cell))]
fn fa() -> &'static [u8]
    ensures { result.now ≡ fa_cell }
{
    b".subckt fa a b c s co\n\
    x1 a b n1 nand2\n\
    x2 a n1 n2 nand2\n\
    x3 b n1 n3 nand2\n\
    x4 n2 n3 x nand2\n\
    x5 x c n4 nand2\n\
    x6 x n4 n5 nand2\n\
    x7 c n4 n6 nand2\n\
    x8 n5 n6 s nand2\n\
    x9 n1 n4 co nand2\n\
    .ends\n"
}

/// The multiplexer.
#[tactic(auto, unfolding(crate::specs::Parts::mux2_cell))]
fn mux2() -> &'static [u8]
    ensures { result.now ≡ mux2_cell }
{
    b".subckt mux2 s a b y\n\
    x1 s sn inv\n\
    mn1 a sn y gnd n\n\
    mp1 a s y vdd p\n\
    mn2 b s y gnd n\n\
    mp2 b sn y vdd p\n\
    .ends\n"
}

/// The ports of the operands of a place.
#[tactic(auto, unfolding(crate::specs::Parts::operands))]
pub fn operand_ports() -> &'static [u8]
    ensures { result.now ≡ operands }
{
    b" a% b%"
}

/// The ports of the outputs of a place.
#[tactic(auto, unfolding(crate::specs::Parts::outputs))]
pub fn output_ports() -> &'static [u8]
    ensures { result.now ≡ outputs }
{
    b" y%"
}

/// The cards of a place in `top`.
#[tactic(auto, unfolding(crate::specs::Parts::place_cards))]
fn cards() -> &'static [u8]
    ensures { result.now ≡ place_cards }
{
    b"xf% a% b% c% t% c+ fa\n\
    xm% s b% t% y% mux2\n"
}

/// Adds the cell `top`.
#[tactic(auto, unfolding(crate::specs::Texts::top_cell))]
fn add_top(text: &mut Text, size: u32) -> Result<(), NoMemory>
    ensures { OnOk result (text.new ≡ text.old ++ top_cell size) }
{
    text.extend(b".subckt top s c0")?;
    add_each(text, operand_ports(), size)?;
    add_each(text, output_ports(), size)?;
    text.extend(b"\n")?;
    add_each(text, cards(), size)?;
    text.extend(b".ends\n")?;
    Ok(())
}

/// Adds the title and all cells.
#[tactic(auto, unfolding(crate::specs::Texts::spice_text))]
pub fn add_netlist(text: &mut Text, size: u32) -> Result<(), NoMemory>
    ensures { OnOk result (text.new ≡ text.old ++ spice_text size) }
{
    text.extend(b"* size ")?;
    add_number(text, size)?;
    text.extend(b"\n")?;
    text.extend(inv())?;
    text.extend(nand2())?;
    text.extend(fa())?;
    text.extend(mux2())?;
    add_top(text, size)?;
    Ok(())
}
