//! The rules of lines.

ghost use Rattle.std.specs.Prelude.{◌≡◌, [], codes, false, map, IfOk, OnOk};
ghost use Rattle.rules_reader.specs.Built.{Adds, AreSoFar};
ghost use Rattle.rules_reader.specs.Refused.{known_by};
ghost use Rattle.rules_reader.specs.Tables.{AreRulesOf, all_from};

use crate::cards::Card;
use crate::entry_rules::add_entry;
use crate::known::Known;
use crate::texts::append;
use names::Names;
use std::alloc::Global;
use vrt_model::{NoMemory, Phase, Rules, Seq, Text};

/// No rules but the clocks and the scale.
fn empty(alloc: Global, clocks: Seq<Text>, scale: u8) -> Rules
    ensures { result ≡ record { clocks = clocks; phases = []; supplies = []; devices = []; strengths = []; clockports = []; defaultclocks = []; pairs = []; ports = []; holds = []; keepers = []; matches = []; instance_matches = []; enters = []; observes = []; assumes = []; scale = scale } }
{
    Rules {
        clocks,
        phases: Seq::new(alloc),
        supplies: Seq::new(alloc),
        devices: Seq::new(alloc),
        strengths: Seq::new(alloc),
        clockports: Seq::new(alloc),
        defaultclocks: Seq::new(alloc),
        pairs: Seq::new(alloc),
        ports: Seq::new(alloc),
        holds: Seq::new(alloc),
        keepers: Seq::new(alloc),
        matches: Seq::new(alloc),
        instance_matches: Seq::new(alloc),
        enters: Seq::new(alloc),
        observes: Seq::new(alloc),
        assumes: Seq::new(alloc),
        scale,
    }
}

/// Adds the rules of a line, if it says something.
fn add_card(
    alloc: Global,
    clocks: &Names,
    clock_names: &[Text],
    phases: &Names,
    rules: &mut Rules,
    card: &Card,
) -> Result<(), NoMemory>
    requires { clock_names.now ≡ clocks.now }
    ensures { OnOk result (Adds clocks.now phases.now card.now.line card.now.entry rules.old rules.new) }
{
    match &card.entry {
        Some(entry) => add_entry(alloc, clocks, clock_names, phases, rules, card.line, entry),
        None => Ok(()),
    }
}

/// The tables of lines.
fn tables(
    alloc: Global,
    known: &Known,
    clock_names: &[Text],
    rules: &mut Rules,
    cards: &[Card],
) -> Result<(), NoMemory>
    requires clocks { clock_names.now ≡ known.now.clocks }
    requires none { AreSoFar known.now.clocks known.now.phases known.now.clocks known.now.scale [] rules.old }
    ensures { OnOk result (AreSoFar known.now.clocks known.now.phases known.now.clocks known.now.scale cards.now rules.new) }
{
    for card in cards {
        add_card(
            alloc,
            &known.clocks,
            clock_names,
            &known.phases,
            rules,
            card,
        )?;
    }
    Ok(())
}

/// The phase `all`, in which every clock is 0.
fn all_phase(alloc: Global, clocks: &[Text]) -> Result<Phase, NoMemory>
    ensures { IfOk result (λ p. p ≡ record { line = 0; name = codes "all"; bits = map (λ c. false) clocks.now }) }
{
    let mut bits = Seq::new(alloc);
    for _clock in clocks {
        append(&mut bits, false)?;
    }
    Ok(Phase {
        line: 0,
        name: Text::from_bytes(alloc, b"all".as_slice())?,
        bits,
    })
}

/// Adds the phase `all` where there is no phase.
fn add_all(alloc: Global, phases: &mut Seq<Phase>, clocks: &[Text]) -> Result<(), NoMemory>
    ensures { OnOk result (phases.new ≡ all_from clocks.now phases.old) }
{
    if !phases.is_empty() {
        return Ok(());
    }
    let all = all_phase(alloc, clocks)?;
    append(phases, all)
}

/// Adds the rules of all lines, where there are none yet.
fn fill(alloc: Global, known: &Known, rules: &mut Rules, cards: &[Card]) -> Result<(), NoMemory>
    requires known { known.now ≡ known_by cards.now }
    requires none { AreSoFar known.now.clocks known.now.phases known.now.clocks known.now.scale [] rules.old }
    ensures { OnOk result (AreRulesOf cards.now rules.new) }
{
    let names = known.clocks.to_texts(alloc)?;
    tables(alloc, known, names.as_slice(), rules, cards)?;
    add_all(alloc, &mut rules.phases, names.as_slice())?;
    Ok(())
}

/// The rules of lines, of which this is known.
pub fn build(alloc: Global, known: &Known, cards: &[Card]) -> Result<Rules, NoMemory>
    requires { known.now ≡ known_by cards.now }
    ensures { IfOk result (AreRulesOf cards.now) }
{
    let clocks = known.clocks.to_texts(alloc)?;
    let mut rules = empty(alloc, clocks, known.scale);
    fill(alloc, known, &mut rules, cards)?;
    Ok(rules)
}
