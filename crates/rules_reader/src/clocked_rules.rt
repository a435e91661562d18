//! The rules of lines on clocks and phases.

ghost use Rattle.std.specs.Prelude.{◌≡◌, ◌++◌, ◌∷◌, [], false, map, option_map, unwrap_or, IfOk, OnOk};
ghost use Rattle.rules_expression.specs.Grammar.{seen};
ghost use Rattle.rules_expression.specs.Grammar.Formula.{a_port};
ghost use Rattle.rules_expression.specs.Readings.{formula_of};
ghost use Rattle.rules_reader.specs.Tables.{assumed, bit_for, clock_ref, number_in};

use crate::texts::{append, copy, copy_two};
use names::Names;
use rules_expression::{Tokens, read_expression};
use rules_lines::{ClockBit, Signed};
use std::alloc::Global;
use text_lines::{WordList, first_word};
use vrt_model::{
    AssumeRule, ClockRef, ClockportRule, DefaultclockRule, EnterRule, Expr, NoMemory, ObserveRule,
    Phase, Seq, Text,
};

/// The number of a name, and 0 where it is not there. The limits of clocks and phases keep it far below 32 bits; a greater
/// one would be answered as want of memory.
fn number(names: &Names, name: &[u8]) -> Result<u32, NoMemory>
    ensures { IfOk result (λ n. n ≡ number_in names.now name.now) }
{
    match u32::try_from(names.place(name).unwrap_or(0)) {
        Ok(n) => Ok(n),
        Err(_) => Err(NoMemory),
    }
}

/// The bit that a phase gives a clock.
fn bit_of_clock(bits: &[ClockBit], clock: &[u8]) -> bool
    ensures { result ≡ bit_for bits.now clock.now }
{
    let mut at = 0;
    'bits: while at < bits.len() {
        if bits[at].clock.as_bytes() == clock {
            return bits[at].bit.unwrap_or(false);
        }
        at += 1;
    }
    false
}

/// The bits that a phase gives clocks.
fn bits_of(alloc: Global, bits: &[ClockBit], clocks: &[Text]) -> Result<Seq<bool>, NoMemory>
    ensures { IfOk result (λ found. found ≡ map (bit_for bits.now) clocks.now) }
{
    let mut found = Seq::new(alloc);
    for clock in clocks {
        append(&mut found, bit_of_clock(bits, clock.as_bytes()))?;
    }
    Ok(found)
}

/// A phase gives each clock a bit.
pub fn add_phase(
    alloc: Global,
    rules: &mut Seq<Phase>,
    line: u32,
    clocks: &[Text],
    name: &Text,
    bits: &[ClockBit],
) -> Result<(), NoMemory>
    ensures { OnOk result (rules.new ≡ rules.old ++ record { line = line; name = name.now; bits = map (bit_for bits.now) clocks.now } ∷ []) }
{
    let bits = bits_of(alloc, bits, clocks)?;
    let name = copy(alloc, name)?;
    let rule = Phase { line, name, bits };
    append(rules, rule)
}

/// The clock of a port.
pub fn add_clockport(
    alloc: Global,
    rules: &mut Seq<ClockportRule>,
    line: u32,
    clocks: &Names,
    cell: &Text,
    port: &Text,
    clock: &Signed,
) -> Result<(), NoMemory>
    ensures { OnOk result (rules.new ≡ rules.old ++ record { line = line; cell = cell.now; port = port.now; clock = clock_ref clocks.now clock.now } ∷ []) }
{
    let clock = ClockRef {
        clock: number(clocks, clock.name.as_bytes())?,
        inverted: clock.is_inverted,
    };
    let (cell, port) = copy_two(alloc, cell, port)?;
    let rule = ClockportRule {
        line,
        cell,
        port,
        clock,
    };
    append(rules, rule)
}

/// The clock of ports that name none.
pub fn add_defaultclock(
    rules: &mut Seq<DefaultclockRule>,
    line: u32,
    clocks: &Names,
    clock: &Text,
) -> Result<(), NoMemory>
    ensures { OnOk result (rules.new ≡ rules.old ++ record { line = line; clock = number_in clocks.now clock.now } ∷ []) }
{
    let clock = number(clocks, clock.as_bytes())?;
    append(rules, DefaultclockRule { line, clock })
}

/// The bit that a net has as a phase begins.
pub fn add_enter(
    alloc: Global,
    rules: &mut Seq<EnterRule>,
    line: u32,
    phases: &Names,
    cell: &Text,
    phase: &Text,
    net: &Text,
    bit: Option<bool>,
) -> Result<(), NoMemory>
    ensures { OnOk result (rules.new ≡ rules.old ++ record { line = line; cell = cell.now; phase = number_in phases.now phase.now; net = net.now; value = unwrap_or bit false } ∷ []) }
{
    let phase = number(phases, phase.as_bytes())?;
    let (cell, net) = copy_two(alloc, cell, net)?;
    let rule = EnterRule {
        line,
        cell,
        phase,
        net,
        value: bit.unwrap_or(false),
    };
    append(rules, rule)
}

/// Adds the number of a name.
fn add_number(names: &Names, found: &mut Seq<u32>, name: &[u8]) -> Result<(), NoMemory>
    ensures { OnOk result (found.new ≡ found.old ++ number_in names.now name.now ∷ []) }
{
    let one = number(names, name)?;
    append(found, one)
}

/// The numbers of phases.
fn numbers(alloc: Global, phases: &Names, names: &WordList) -> Result<Seq<u32>, NoMemory>
    ensures { IfOk result (λ found. found ≡ map (number_in phases.now) names.now) }
{
    let mut found = Seq::new(alloc);
    let mut rest = names.as_line();
    'names: while let Some((name, behind)) = first_word(rest) {
        add_number(phases, &mut found, name)?;
        rest = behind;
    }
    Ok(found)
}

/// The phases in which a port is observed.
pub fn add_observe(
    alloc: Global,
    rules: &mut Seq<ObserveRule>,
    line: u32,
    phases: &Names,
    cell: &Text,
    port: &Text,
    names: &WordList,
) -> Result<(), NoMemory>
    ensures { OnOk result (rules.new ≡ rules.old ++ record { line = line; cell = cell.now; port = port.now; phases = map (number_in phases.now) names.now } ∷ []) }
{
    let phases = numbers(alloc, phases, names)?;
    let (cell, port) = copy_two(alloc, cell, port)?;
    let rule = ObserveRule {
        line,
        cell,
        port,
        phases,
    };
    append(rules, rule)
}

/// The number of a phase, none for `*`.
fn phase_number(phases: &Names, phase: &Option<Text>) -> Result<Option<u32>, NoMemory>
    ensures { IfOk result (λ n. n ≡ option_map (number_in phases.now) phase.now) }
{
    match phase {
        Some(phase) => {
            let n = number(phases, phase.as_bytes())?;
            Ok(Some(n))
        }
        None => Ok(None),
    }
}

/// The expression of tokens, a port without a name where they spell none.
fn expression(alloc: Global, tokens: &Tokens) -> Result<Expr, NoMemory>
    ensures { IfOk result (λ e. seen e ≡ unwrap_or (formula_of tokens.now) (a_port [])) }
{
    match read_expression(alloc, tokens)? {
        Some(e) => Ok(e),
        None => Ok(Expr::Port(Text::new(alloc))),
    }
}

/// What is assumed in a phase, or in each.
pub fn add_assume(
    alloc: Global,
    rules: &mut Seq<AssumeRule>,
    line: u32,
    phases: &Names,
    cell: &Text,
    phase: &Option<Text>,
    tokens: &Tokens,
) -> Result<(), NoMemory>
    ensures { OnOk result (map assumed rules.new ≡ map assumed rules.old ++ record { line = line; cell = cell.now; phase = option_map (number_in phases.now) phase.now; formula = unwrap_or (formula_of tokens.now) (a_port []) } ∷ []) }
{
    let phase = phase_number(phases, phase)?;
    let expression = expression(alloc, tokens)?;
    let cell = copy(alloc, cell)?;
    let rule = AssumeRule {
        line,
        cell,
        phase,
        expression,
    };
    append(rules, rule)
}
