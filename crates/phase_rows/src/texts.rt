//! The design, the rules and the model that the texts say, and what is asked of them and of the circuit.
//!
//! | asked | what is told |
//! |---|---|
//! | `expression N` | the function of the `assume` line of this number, over the ports of the first cell |
//! | `kept` | the faults of a net: the first four `assume` lines are where there is care, the wanted bit, and where 0 and 1 reach it |
//! | `obligation PHASE N` | where the constraints of the instance of this number hold, over the inputs |
//! | `faults PHASE N NET ..` | the first fault of the circuit where the `assume` line of this number holds, with these nets observed |
//! | `groups` | the groups of holds, or the first latch without one |
//! | `variables PHASE` | the variables and what they stand for, or how many too many there are |
//! | `care PHASE` | where the constraints of the first cell hold, over the variables |
//! | `held PHASE` | the held value of each hold, over the variables |

ghost use Rattle.vrt_model.specs.Inputs.{AreRules, IsBlif, IsDesign};

use crate::drawing::number;
use crate::stop::Stop;
use crate::{expressions, faults, groups, obligations};
use blif_flat::{check_models, flat_model};
use blif_reader::read_blif;
use hierarchy::order;
use row_script::{Page, Script, word_and_rest};
use rules_reader::read_rules;
use spice_reader::read_spice;
use vrt_model::{Blif, Circuit, Design, Rules};

/// The most bytes of a text that a reader takes.
const MOST_BYTES: usize = 16_777_216;

/// What the lines give beside the models.
#[derive(Clone, Copy)]
pub(crate) struct Given<'a> {
    /// The netlist, whose first cell is the one that is asked of.
    pub design: &'a Design,
    /// The rules.
    pub rules: &'a Rules,
    /// The circuit of the first cell.
    pub circuit: &'a Circuit,
}

/// Tells what is asked of the first model, where all are as they are to be.
fn with_blif(page: &mut Page, given: Given<'_>, blif: &Blif, asked: &str) -> Result<(), Stop>
    requires { IsBlif blif.now }
{
    if check_models(page.alloc(), blif).is_err() {
        return Err(Stop::Unfit);
    }
    match flat_model(page.alloc(), blif, 0) {
        Ok(flat) => groups::tell(page, given, &flat, asked),
        Err(_) => Err(Stop::Unfit),
    }
}

/// The same with the text of the models.
fn with_models(page: &mut Page, given: Given<'_>, text: &[u8], asked: &str) -> Result<(), Stop> {
    if text.len() > MOST_BYTES {
        return Err(Stop::Unfit);
    }
    match read_blif(page.alloc(), text) {
        Ok(blif) => with_blif(page, given, &blif, asked),
        Err(_) => Err(Stop::NotRead),
    }
}

/// Tells what is asked of the first cell and its instances, where the netlist and the rules are as they are to be.
fn with_order(page: &mut Page, given: Given<'_>, word: &str, rest: &str) -> Result<(), Stop>
    requires netlist { IsDesign given.design.now }
    requires ruled { AreRules given.rules.now }
{
    match order(page.alloc(), given.design, given.rules) {
        Ok(_) if word == "faults" => faults::tell(page, given, rest),
        Ok(_) => obligations::tell(page, given, rest),
        Err(_) => Err(Stop::Unfit),
    }
}

/// Tells what is asked of a design, rules and a circuit.
fn answered(page: &mut Page, given: Given<'_>, models: &[u8], asked: &str) -> Result<(), Stop>
    requires netlist { IsDesign given.design.now }
    requires ruled { AreRules given.rules.now }
{
    let (word, rest) = word_and_rest(asked);
    match word {
        "expression" => expressions::tell(page, given.design, given.rules, number(rest)?),
        "kept" => expressions::tell_kept(page, given.design, given.rules),
        "faults" | "obligation" => with_order(page, given, word, rest),
        _ => with_models(page, given, models, asked),
    }
}

/// The same with the text of the rules.
fn with_rules(
    page: &mut Page,
    design: &Design,
    script: &Script,
    circuit: &Circuit,
    asked: &str,
) -> Result<(), Stop>
    requires { IsDesign design.now }
{
    let text = script.rules.written();
    if text.len() > MOST_BYTES {
        return Err(Stop::Unfit);
    }
    match read_rules(page.alloc(), text) {
        Ok(rules) => {
            let given = Given {
                design,
                rules: &rules,
                circuit,
            };
            answered(page, given, script.models.written(), asked)
        }
        Err(_) => Err(Stop::NotRead),
    }
}

/// Tells what is asked of the texts and the circuit.
pub(crate) fn tell(
    page: &mut Page,
    script: &Script,
    circuit: &Circuit,
    asked: &str,
) -> Result<(), Stop> {
    let text = script.netlist.written();
    if text.len() > MOST_BYTES {
        return Err(Stop::Unfit);
    }
    match read_spice(page.alloc(), text) {
        Ok(design) => with_rules(page, &design, script, circuit, asked),
        Err(_) => Err(Stop::NotRead),
    }
}
