//! The three texts of a size.

ghost use Rattle.std.specs.Prelude.{◌≡◌, IfOk};
ghost use Rattle.generator.specs.Texts.{spice_text, blif_text, rules_text, IsSize, AreTexts, AreShort, ArePlain};

use crate::models::add_models;
use crate::netlist::add_netlist;
use std::alloc::Global;
use vrt_model::{NoMemory, Text};

/// A netlist with its models and rules, as files have them.
pub struct Generated {
    /// The netlist.
    pub spice: Text,
    /// The models.
    pub blif: Text,
    /// The rules.
    pub rules: Text,
}

/// By hand, so that letting go of one is a call.
impl Drop for Generated {
    fn drop(self) {
        let Generated {
            spice: _spice,
            blif: _blif,
            rules: _rules,
        } = self;
    }
}

/// The rules, the same at each size.
#[tactic(auto, unfolding(crate::specs::Texts::rules_text))]
fn rule_lines() -> &'static [u8]
    ensures { result.now ≡ rules_text }
{
    b"supply 1 vdd\n\
    supply 0 gnd\n\
    device n n\n\
    device p p\n"
}

/// The netlist.
fn spice(alloc: Global, size: u32) -> Result<Text, NoMemory>
    ensures { IfOk result (λ text. text ≡ spice_text size) }
{
    let mut text = Text::new(alloc);
    add_netlist(&mut text, size)?;
    Ok(text)
}

/// The models.
fn blif(alloc: Global, size: u32) -> Result<Text, NoMemory>
    ensures { IfOk result (λ text. text ≡ blif_text size) }
{
    let mut text = Text::new(alloc);
    add_models(&mut text, size)?;
    Ok(text)
}

/// The three texts of a size.
pub fn generate(alloc: Global, size: u32) -> Result<Generated, NoMemory>
    requires { IsSize size }
    ensures texts { IfOk result (λ made. AreTexts made size) }

    // What a caller needs who hands them to the readers.
    ensures short { IfOk result AreShort }
    ensures plain { IfOk result ArePlain }
{
    let spice = spice(alloc, size)?;
    let blif = blif(alloc, size)?;
    let rules = Text::from_bytes(alloc, rule_lines())?;
    Ok(Generated { spice, blif, rules })
}
