//! Whether the outputs of a cell are observed in all phases.

ghost use Rattle.std.specs.Prelude.{◌≡◌, ◌||◌, map};
ghost use Rattle.std.specs.List.{list_all};
ghost use Rattle.std.specs.Option.{option_copied};
ghost use Rattle.phase_ports.specs.Ports.{unnamed};
ghost use Rattle.rule_index.specs.Tables.{AreRuleTables};
ghost use Rattle.vrt_model.specs.CellRules.{is_observed_port};
ghost use Rattle.vrt_model.specs.Checked.{observes_outputs as observes};
ghost use Rattle.vrt_model.specs.Comparison.{Comparison, cell_at, ports_of};
ghost use Rattle.vrt_model.specs.Inputs.{AreRules};
ghost use Rattle.vrt_model.specs.Variables.{places};
ghost use Rattle.whole_cells.specs.Seen.{is_seen_named, is_seen_port};

use phase_ports::{Port, is_observed_port, output_signal};
use rule_index::RuleIndex;
use vrt_model::{Cell, Rules, Text};

/// Whether a port of a cell is observed in all phases, where it is an output.
fn is_seen_always(index: &RuleIndex, rules: &Rules, cell: &Text, port: &Text) -> bool
    requires tables { AreRuleTables rules.now index.now }
    requires valid { AreRules rules.now }
    ensures { result ≡ list_all (λ phase. is_observed_port rules.now cell.now port.now phase) (places 0 rules.now.phases) }
{
    let mut phase = 0;
    let mut rest = rules.phases.as_slice();
    'phases: while let Some((_, behind)) = rest.split_first() {
        if !is_observed_port(index, rules, cell, port, phase) {
            return false;
        }
        phase += 1;
        rest = behind;
    }
    true
}

/// Whether a port of a name, if there is one, is observed in all phases.
fn is_seen_named(index: &RuleIndex, rules: &Rules, cell: &Text, port: Option<&Text>) -> bool
    requires tables { AreRuleTables rules.now index.now }
    requires valid { AreRules rules.now }
    ensures { result ≡ is_seen_named rules.now cell.now (option_copied port.entry) }
{
    match port {
        Some(name) => is_seen_always(index, rules, cell, name),
        None => true,
    }
}

/// Whether a port is no output, or is observed in all phases.
fn is_seen_port(index: &RuleIndex, rules: &Rules, cell: &Cell, port: Port) -> bool
    requires tables { AreRuleTables rules.now index.now }
    requires valid { AreRules rules.now }
    ensures { result ≡ is_seen_port rules.now cell.now port }
{
    match output_signal(port.role) {
        Some(_) => {
            let name = cell.ports.get(port.place as usize);
            is_seen_named(index, rules, &cell.name, name)
        }
        None => true,
    }
}

/// Whether each of some ports is so.
fn are_seen(index: &RuleIndex, rules: &Rules, cell: &Cell, ports: &[Port]) -> bool
    requires tables { AreRuleTables rules.now index.now }
    requires valid { AreRules rules.now }
    ensures { result ≡ list_all (is_seen_port rules.now cell.now) ports.now }
{
    let mut rest = ports;
    'ports: while let Some((port, behind)) = rest.split_first() {
        if !is_seen_port(index, rules, cell, *port) {
            return false;
        }
        rest = behind;
    }
    true
}

/// Whether each output of a cell is observed in all phases: of the rules only those of this cell are looked at.
pub fn observes_outputs(index: &RuleIndex, rules: &Rules, cell: &Cell, ports: &[Port]) -> bool
    requires tables { AreRuleTables rules.now index.now }
    requires valid { AreRules rules.now }
    ensures { (k : Comparison) → k.rules ≡ rules.now → cell_at k.design k.cell ≡ cell.now → ports.now ≡ map unnamed (ports_of k) → result ≡ observes k }
{
    are_seen(index, rules, cell, ports)
}
