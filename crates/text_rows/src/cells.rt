//! Cells of the netlist, under the rules.

ghost use Rattle.vrt_model.specs.Inputs.{AreRules, IsDesign};

use crate::{MOST_BYTES, circuits, orders, pairings};
use row_script::{Page, Script, number};
use rules_reader::read_rules;
use spice_reader::read_spice;
use vrt_model::{Design, Rules};

/// Tells what is asked of cells.
fn answer(page: &mut Page, design: &Design, rules: &Rules, models: &[u8], word: &str, rest: &str)
    requires netlist { IsDesign design.now }
    requires ruled { AreRules rules.now }
{
    match word {
        "circuit" => circuits::tell(page, design, rules, rest),
        "sizes" => circuits::tell_sizes(page, design, rules),
        "structure" => circuits::tell_structure(page, design, rules),
        "order" => orders::tell(page, design, rules),
        "model" => pairings::tell(page, design, rules, models, Some(number(rest))),
        "pair" => pairings::tell(page, design, rules, models, None),
        _ => page.word("no such line"),
    }
}

/// The same with the text of the rules.
fn with_rules(page: &mut Page, design: &Design, script: &Script, word: &str, rest: &str)
    requires { IsDesign design.now }
{
    let rules = script.rules.written();
    if rules.len() > MOST_BYTES {
        return page.word("too many bytes");
    }
    match read_rules(page.alloc(), rules) {
        Ok(rules) => answer(page, design, &rules, script.models.written(), word, rest),
        Err(_) => page.word("rules that are not read"),
    }
}

/// Tells what is asked of the cells of the texts.
pub(crate) fn tell(page: &mut Page, script: &Script, word: &str, rest: &str) {
    let netlist = script.netlist.written();
    if netlist.len() > MOST_BYTES {
        return page.word("too many bytes");
    }
    match read_spice(page.alloc(), netlist) {
        Ok(design) => with_rules(page, &design, script, word, rest),
        Err(_) => page.word("a netlist that is not read"),
    }
}
