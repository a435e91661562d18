//! What the three files say, or why no cell is compared.

ghost use Rattle.std.specs.Prelude.{◌≡◌, ◌≤◌, length, IfOk, IfErr, MatchResult};
ghost use Rattle.rules_reader.specs.Entries.{cards_of as rules_cards_of};
ghost use Rattle.rules_reader.specs.Refused.{fault_of as rules_fault_of};
ghost use Rattle.rules_reader.specs.Tables.{AreRulesOf};
ghost use Rattle.spice_reader.specs.Cards.{cards_of as netlist_cards_of};
ghost use Rattle.spice_reader.specs.Netlist.{design_of};
ghost use Rattle.spice_reader.specs.Refused.{IsNetlist};
ghost use Rattle.text_lines.specs.Faults.{IsClean};
ghost use Rattle.verity_run.specs.Given.{AreFit, AreRead, bytes_of, given, names_in};
ghost use Rattle.verity_run.specs.Refusals.{IsRefusal, OfNetlist, OfRules, Tells, TellsStop};
ghost use Rattle.vrt_model.specs.Inputs.{AreRules, IsDesign};

use crate::messages;
use crate::models::{read_models, unroll};
use crate::reads::{Stop, Stopped};
use command_line::FileWords;
use rules_reader::{RulesFault, read_rules};
use spice_reader::{SpiceFault, read_spice};
use std::alloc::Global;
use vrt_model::{Blif, Design, NoMemory, Rules, Text};

/// The bytes of three texts.
#[derive(Clone, Copy)]
pub struct Bytes<'a> {
    /// The netlist.
    pub spice: &'a [u8],
    /// The models.
    pub blif: &'a [u8],
    /// The rules.
    pub rules: &'a [u8],
}

/// Why no cell is compared.
#[derive(Drop)]
pub enum Refusal {
    /// A file could not be read: status 5, with this line.
    Unread(Text),
    /// A file is refused, or what the words name is not there: status 3, with this line.
    Told(Text),
    /// Memory was wanting: status 7, and no line.
    NoMemory,
}

impl From<NoMemory> for Refusal {
    ghost use Rattle.verity_run.specs.declared.refusals.Refusal.TheVariants.{NoMemory};

    ghost from_gives = { λ _ r. r ≡ NoMemory };

    fn from(_: NoMemory) -> Refusal {
        Refusal::NoMemory
    }
}

/// What the three files say.
pub struct Inputs {
    /// The netlist of cells.
    pub design: Design,
    /// The models, which can be unrolled.
    pub blif: Blif,
    /// What the rules file declares.
    pub rules: Rules,
}

/// By hand, so that letting go of one is a call.
impl Drop for Inputs {
    fn drop(self) {
        let Inputs {
            design: _design,
            blif: _blif,
            rules: _rules,
        } = self;
    }
}

/// The refusal with a line.
pub fn told(line: Result<Text, NoMemory>) -> Refusal
    ensures { MatchResult line (λ text. result ≡ Refusal.Told text) (λ _. result ≡ Refusal.NoMemory) }
{
    match line {
        Ok(text) => Refusal::Told(text),
        Err(_) => Refusal::NoMemory,
    }
}

/// The cells of a netlist.
fn read_netlist(alloc: Global, word: &str, bytes: &[u8]) -> Result<Design, Refusal>
    requires { length bytes.now ≤ 16777216 }
    ensures ok { IfOk result (λ d. IsNetlist (netlist_cards_of bytes.now) × (d ≡ design_of (netlist_cards_of bytes.now))) }
    ensures fit { IfOk result IsDesign }
    ensures err { IfErr result (Tells (OfNetlist word.now bytes.now)) }
{
    match read_spice(alloc, bytes) {
        Ok(design) => Ok(design),
        Err(SpiceFault::NoMemory) => Err(Refusal::NoMemory),
        Err(fault) => Err(told(messages::spice_refusal(alloc, word.as_bytes(), &fault))),
    }
}

/// The rules of a text.
fn read_lines(alloc: Global, word: &str, bytes: &[u8]) -> Result<Rules, Refusal>
    requires { length bytes.now ≤ 16777216 }
    ensures ok { IfOk result (λ r. IsClean rules_fault_of (rules_cards_of bytes.now) × AreRulesOf (rules_cards_of bytes.now) r) }
    ensures fit { IfOk result AreRules }
    ensures err { IfErr result (Tells (OfRules word.now bytes.now)) }
{
    match read_rules(alloc, bytes) {
        Ok(rules) => Ok(rules),
        Err(RulesFault::NoMemory) => Err(Refusal::NoMemory),
        Err(fault) => Err(told(messages::rules_refusal(alloc, word.as_bytes(), &fault))),
    }
}

/// Reads the netlist, the models and the rules out of their texts, and refuses models that cannot be unrolled: the first
/// refusal in this order.
pub fn read_texts(
    alloc: Global,
    words: &FileWords<'_>,
    bytes: &Bytes<'_>,
) -> Result<Inputs, Refusal>
    requires spice { length bytes.now.spice.now ≤ 16777216 }
    requires blif { length bytes.now.blif.now ≤ 16777216 }
    requires rules { length bytes.now.rules.now ≤ 16777216 }
    ensures ok { IfOk result (λ i. AreRead (given (names_in words.now) (bytes_of bytes.now)) i.design i.blif i.rules) }
    ensures fit { IfOk result (λ i. AreFit i.design i.blif i.rules) }
    ensures err { IfErr result (Tells (IsRefusal (given (names_in words.now) (bytes_of bytes.now)))) }
{
    let design = read_netlist(alloc, words.spice, bytes.spice)?;
    let blif = read_models(alloc, words.blif, bytes.blif)?;
    let rules = read_lines(alloc, words.rules, bytes.rules)?;
    unroll(alloc, words.blif, &blif)?;
    Ok(Inputs {
        design,
        blif,
        rules,
    })
}

/// The refusal where a file was not read.
pub fn unread(alloc: Global, stopped: &Stopped<'_>) -> Refusal
    ensures { TellsStop stopped.now.stop stopped.now.name.now result }
{
    match stopped.stop {
        Stop::Failed => match messages::read_failed(alloc, stopped.name.as_bytes()) {
            Ok(line) => Refusal::Unread(line),
            Err(_) => Refusal::NoMemory,
        },
        Stop::TooLong => told(messages::too_long(alloc, stopped.name.as_bytes())),
        Stop::NoMemory => Refusal::NoMemory,
    }
}
