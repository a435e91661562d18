//! The line of a verdict.

ghost use Rattle.std.specs.Prelude.{◌≡◌, ◌∷◌, ◌++◌, [], codes, IfOk, OnOk};
ghost use Rattle.std.specs.Fmt.{decimal};
ghost use Rattle.std.specs.Option.{option_copied};
ghost use Rattle.vrt_model.specs.Comparison.{net_name};
ghost use Rattle.vrt_model.specs.Elements.{signal_name};
ghost use Rattle.vrt_model.specs.VerdictText.{bit_text, spaced, settings, or_dash, valuation_text, phase_text, kind_text, wanted_text, values_words, fault_words, first_net, first_signal, why_words, verdict_words, verdict_line};

use itoa::Buffer;
use std::alloc::Global;
use vrt_model::{
    Circuit, FaultAt, FaultKind, FlatModel, Net, NoMemory, Rules, Seq, Text, Verdict, Why,
};

/// A number in decimal.
pub fn decimal_text(alloc: Global, number: u64) -> Result<Text, NoMemory>
    ensures { IfOk result (λ text. text ≡ decimal number) }
{
    let mut buffer = Buffer::new();
    Text::from_bytes(alloc, buffer.format(number).as_bytes())
}

/// A bit as text.
fn bit_word(bit: bool) -> &'static [u8]
    ensures { result.now ≡ bit_text bit }
{
    if bit { b"1" } else { b"0" }
}

/// Adds a copy of a word.
fn add(alloc: Global, words: &mut Seq<Text>, word: &[u8]) -> Result<(), NoMemory>
    ensures { OnOk result (words.new ≡ words.old ++ word.now ∷ []) }
{
    let copy = Text::from_bytes(alloc, word)?;
    words.append(copy)
}

/// Words with one space between them.
fn spread(alloc: Global, words: &[Text]) -> Result<Text, NoMemory>
    ensures { IfOk result (λ text. text ≡ spaced words.now) }
{
    let Some((first, rest)) = words.split_first() else {
        return Ok(Text::new(alloc));
    };
    let mut text = Text::from_bytes(alloc, first.as_bytes())?;
    for word in rest {
        text.extend(b" ")?;
        text.extend(word.as_bytes())?;
    }
    Ok(text)
}

/// `NAME=BIT`.
fn setting(alloc: Global, name: &[u8], bit: bool) -> Result<Text, NoMemory>
    ensures { IfOk result (λ text. text ≡ name.now ++ 61 ∷ bit_text bit) }
{
    let mut text = Text::from_bytes(alloc, name)?;
    text.extend(b"=")?;
    text.extend(bit_word(bit))?;
    Ok(text)
}

/// The variables with their bits.
fn all_settings(alloc: Global, names: &[Text], bits: &[bool]) -> Result<Seq<Text>, NoMemory>
    ensures { IfOk result (λ found. found ≡ settings names.now bits.now) }
{
    let mut found = Seq::new(alloc);
    let mut names_left = names;
    let mut bits_left = bits;
    'variables: while let (Some((name, names)), Some((bit, bits))) = (
        names_left.split_first(),
        bits_left.split_first(),
    ) {
        let one = setting(alloc, name.as_bytes(), *bit)?;
        found.append(one)?;
        names_left = names;
        bits_left = bits;
    }
    Ok(found)
}

/// The variables with their bits, or a dash where there is none.
fn valuation(alloc: Global, names: &[Text], bits: &[bool]) -> Result<Text, NoMemory>
    ensures { IfOk result (λ text. text ≡ valuation_text names.now bits.now) }
{
    let found = all_settings(alloc, names, bits)?;
    dashed(alloc, found.as_slice())
}

/// Words with one space between them, or a dash where there is none.
fn dashed(alloc: Global, words: &[Text]) -> Result<Text, NoMemory>
    ensures { IfOk result (λ text. text ≡ or_dash words.now) }
{
    match words {
        [] => Text::from_bytes(alloc, b"-"),
        [_, ..] => spread(alloc, words),
    }
}

/// The name of a phase, empty where there is none.
fn phase_name(rules: &Rules, phase: u32) -> &[u8]
    ensures { result.now ≡ phase_text rules.now phase }
{
    match rules.phases.get(phase as usize) {
        Some(found) => found.name.as_bytes(),
        None => &[],
    }
}

/// The word of a kind of fault.
fn kind_word(kind: FaultKind) -> &'static [u8]
    ensures { result.now ≡ kind_text kind }
{
    match kind {
        FaultKind::Fight => b"fight",
        FaultKind::FightKept => b"fightkept",
        FaultKind::Float => b"float",
        FaultKind::Unsettled => b"unsettled",
        FaultKind::Constraint => b"constraint",
        FaultKind::Differs => b"differs",
        FaultKind::Next => b"next",
        FaultKind::Apart => b"apart",
        FaultKind::Enter => b"enter",
    }
}

/// The word before the wanted value.
fn wanted_word(kind: FaultKind) -> &'static [u8]
    ensures { result.now ≡ wanted_text kind }
{
    match kind {
        FaultKind::Differs => b"model",
        _ => b"wanted",
    }
}

/// Adds the two values of a fault, where it has both.
fn add_values(alloc: Global, words: &mut Seq<Text>, fault: &FaultAt) -> Result<(), NoMemory>
    ensures { OnOk result (words.new ≡ words.old ++ values_words fault.now.kind fault.now.circuit fault.now.wanted) }
{
    let (Some(circuit), Some(wanted)) = (fault.circuit, fault.wanted) else {
        return Ok(());
    };
    add(alloc, words, b"circuit")?;
    add(alloc, words, bit_word(circuit))?;
    add(alloc, words, wanted_word(fault.kind))?;
    add(alloc, words, bit_word(wanted))
}

/// Adds the words of a fault.
fn add_fault(
    alloc: Global,
    words: &mut Seq<Text>,
    rules: &Rules,
    fault: &FaultAt,
) -> Result<(), NoMemory>
    ensures { OnOk result (words.new ≡ words.old ++ fault_words rules.now fault.now) }
{
    add(alloc, words, kind_word(fault.kind))?;
    add(alloc, words, fault.place.as_bytes())?;
    add(alloc, words, b"phase")?;
    add(alloc, words, phase_name(rules, fault.phase))?;
    add_values(alloc, words, fault)?;
    add(alloc, words, b"at")?;
    let at = valuation(
        alloc,
        fault.names.as_slice(),
        fault.valuation.bits.as_slice(),
    )?;
    words.append(at)
}

/// Adds a word and a name.
fn add_named(alloc: Global, words: &mut Seq<Text>, word: &[u8], name: &[u8]) -> Result<(), NoMemory>
    ensures { OnOk result (words.new ≡ words.old ++ word.now ∷ name.now ∷ []) }
{
    add(alloc, words, word)?;
    add(alloc, words, name)
}

/// Adds a word and a number.
fn add_counted(
    alloc: Global,
    words: &mut Seq<Text>,
    word: &[u8],
    count: u64,
) -> Result<(), NoMemory>
    ensures { OnOk result (words.new ≡ words.old ++ word.now ∷ decimal count ∷ []) }
{
    let number = decimal_text(alloc, count)?;
    add_named(alloc, words, word, number.as_bytes())
}

/// Adds the name of a phase behind its word.
fn add_phase(
    alloc: Global,
    words: &mut Seq<Text>,
    rules: &Rules,
    phase: u32,
) -> Result<(), NoMemory>
    ensures { OnOk result (words.new ≡ words.old ++ codes "phase" ∷ phase_text rules.now phase ∷ []) }
{
    add_named(alloc, words, b"phase", phase_name(rules, phase))
}

/// The name of a net, empty where there is none.
fn net_name(circuit: &Circuit, net: Net) -> &[u8]
    ensures { result.now ≡ net_name circuit.now net.0 }
{
    match circuit.nets.get(net.0 as usize) {
        Some(net) => net.name.as_bytes(),
        None => &[],
    }
}

/// The name of a signal, empty where there is none.
fn signal_name(flat: &FlatModel, signal: u32) -> &[u8]
    ensures { result.now ≡ signal_name flat.now signal }
{
    match flat.signals.get(signal as usize) {
        Some(name) => name.as_bytes(),
        None => &[],
    }
}

/// The name of the first of some nets.
fn first_net<'a>(circuit: Option<&'a Circuit>, nets: &[Net]) -> &'a [u8]
    ensures { result.now ≡ first_net (option_copied circuit.entry) nets.now }
{
    match (circuit, nets) {
        (Some(circuit), [net, ..]) => net_name(circuit, *net),
        _ => &[],
    }
}

/// The name of the first of some signals.
fn first_signal<'a>(flat: Option<&'a FlatModel>, signals: &[u32]) -> &'a [u8]
    ensures { result.now ≡ first_signal (option_copied flat.entry) signals.now }
{
    match (flat, signals) {
        (Some(flat), [signal, ..]) => signal_name(flat, *signal),
        _ => &[],
    }
}

/// Adds the first net of a cycle and its phase.
fn add_cycle(
    alloc: Global,
    words: &mut Seq<Text>,
    rules: &Rules,
    word: &[u8],
    name: &[u8],
    phase: u32,
) -> Result<(), NoMemory>
    ensures { OnOk result (words.new ≡ words.old ++ word.now ∷ name.now ∷ codes "phase" ∷ phase_text rules.now phase ∷ []) }
{
    add_named(alloc, words, word, name)?;
    add_phase(alloc, words, rules, phase)
}

/// Adds the words of a cause.
fn add_why(
    alloc: Global,
    words: &mut Seq<Text>,
    rules: &Rules,
    circuit: Option<&Circuit>,
    flat: Option<&FlatModel>,
    why: &Why,
) -> Result<(), NoMemory>
    ensures { OnOk result (words.new ≡ words.old ++ why_words rules.now (option_copied circuit.entry) (option_copied flat.entry) why.now) }
{
    match why {
        Why::Ports { name } => add_named(alloc, words, b"ports", name.as_bytes()),
        Why::Cycle { phase, nets } => {
            let name = first_net(circuit, nets.as_slice());
            add_cycle(alloc, words, rules, b"cycle", name, *phase)
        }
        Why::ModelCycle { phase, signals } => {
            let name = first_signal(flat, signals.as_slice());
            add_cycle(alloc, words, rules, b"modelcycle", name, *phase)
        }
        Why::Unmatched { name } => add_named(alloc, words, b"unmatched", name.as_bytes()),
        Why::DeviceModel { model } => add_named(alloc, words, b"device", model.as_bytes()),
        Why::SupplyTie { path } => add_named(alloc, words, b"supplytie", path.as_bytes()),
        Why::OutputIsInput { signal } => {
            add_named(alloc, words, b"outputisinput", signal.as_bytes())
        }
        Why::TooManyVars { count } => add_counted(alloc, words, b"variables", u64::from(*count)),
        Why::TooLarge { count } => add_counted(alloc, words, b"large", *count),
        Why::NoModel => add(alloc, words, b"nomodel"),
        Why::NoClock { latch } => add_named(alloc, words, b"noclock", latch.as_bytes()),
    }
}

/// Adds the words of a phase in which no valuation meets the constraints.
fn add_vacuous(
    alloc: Global,
    words: &mut Seq<Text>,
    rules: &Rules,
    phase: u32,
) -> Result<(), NoMemory>
    ensures { OnOk result (words.new ≡ words.old ++ codes "vacuous" ∷ codes "phase" ∷ phase_text rules.now phase ∷ []) }
{
    add(alloc, words, b"vacuous")?;
    add_phase(alloc, words, rules, phase)
}

/// Adds the words of a budget that is used up.
fn add_budget(
    alloc: Global,
    words: &mut Seq<Text>,
    rules: &Rules,
    nodes: u32,
    phase: u32,
) -> Result<(), NoMemory>
    ensures { OnOk result (words.new ≡ words.old ++ codes "budget" ∷ decimal nodes ∷ codes "phase" ∷ phase_text rules.now phase ∷ []) }
{
    add_counted(alloc, words, b"budget", u64::from(nodes))?;
    add_phase(alloc, words, rules, phase)
}

/// Adds the words of a cell that cannot be checked.
fn add_unsupported(
    alloc: Global,
    words: &mut Seq<Text>,
    rules: &Rules,
    circuit: Option<&Circuit>,
    flat: Option<&FlatModel>,
    why: &Why,
) -> Result<(), NoMemory>
    ensures { OnOk result (words.new ≡ words.old ++ codes "unsupported" ∷ why_words rules.now (option_copied circuit.entry) (option_copied flat.entry) why.now) }
{
    add(alloc, words, b"unsupported")?;
    add_why(alloc, words, rules, circuit, flat, why)
}

/// Adds the words of a verdict.
fn add_verdict(
    alloc: Global,
    words: &mut Seq<Text>,
    rules: &Rules,
    circuit: Option<&Circuit>,
    flat: Option<&FlatModel>,
    verdict: &Verdict,
) -> Result<(), NoMemory>
    ensures { OnOk result (words.new ≡ words.old ++ verdict_words rules.now (option_copied circuit.entry) (option_copied flat.entry) verdict.now) }
{
    match verdict {
        Verdict::Equal => add(alloc, words, b"equal"),
        Verdict::Skipped => add(alloc, words, b"skipped"),
        Verdict::Fault(fault) => add_fault(alloc, words, rules, fault),
        Verdict::Vacuous { phase } => add_vacuous(alloc, words, rules, *phase),
        Verdict::Budget { nodes, phase } => add_budget(alloc, words, rules, *nodes, *phase),
        Verdict::Unsupported(why) => add_unsupported(alloc, words, rules, circuit, flat, why),
    }
}

/// The line of a verdict on a cell, without its line feed. A cycle comes with its flat circuit, and a cycle of the model with
/// its flat model: the first net or signal on it is named, and nothing where there is none.
pub fn verdict_text(
    alloc: Global,
    cell: &Text,
    verdict: &Verdict,
    rules: &Rules,
    circuit: Option<&Circuit>,
    flat: Option<&FlatModel>,
) -> Result<Text, NoMemory>
    ensures { IfOk result (λ text. text ≡ verdict_line cell.now verdict.now rules.now (option_copied circuit.entry) (option_copied flat.entry)) }
{
    let mut words = Seq::new(alloc);
    add(alloc, &mut words, b"cell")?;
    add(alloc, &mut words, cell.as_bytes())?;
    add_verdict(alloc, &mut words, rules, circuit, flat, verdict)?;
    spread(alloc, words.as_slice())
}
