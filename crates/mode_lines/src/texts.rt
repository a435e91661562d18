//! The lines.

ghost use Rattle.std.specs.Prelude.{◌≡◌, ◌∷◌, ◌++◌, [], codes, map, IfOk, OnOk};
ghost use Rattle.std.specs.Fmt.{decimal};
ghost use Rattle.std.specs.List.{concat, cons_option};
ghost use Rattle.mode_lines.specs.Lines.{class_line, class_lines, class_text, generated_line, meets_text, net_line, net_lines, replay_line, replay_lines, seen_line, seen_text};
ghost use Rattle.vrt_model.specs.Comparison.{net_name};
ghost use Rattle.vrt_model.specs.Known.{is_plain_kind};
ghost use Rattle.vrt_model.specs.VerdictText.{bit_text};

use channel_parts::{Class, ClassLine};
use std::alloc::Global;
use vrt_model::{Circuit, FlatNet, Net, NetKind, NoMemory, Seq, Text};
use witness::{Seen, Values, decimal_text};

/// Pieces, one behind the other.
fn join(alloc: Global, pieces: &[&[u8]]) -> Result<Text, NoMemory>
    ensures { IfOk result (λ text. text ≡ concat (map (λ x. x.now) pieces.now)) }
{
    let mut text = Text::new(alloc);
    for piece in pieces {
        text.extend(piece)?;
    }
    Ok(text)
}

/// A line of three words, each behind a text of its own.
fn line_of<'a>(
    alloc: Global,
    first: &'a [u8],
    one: &'a [u8],
    second: &'a [u8],
    two: &'a [u8],
    third: &'a [u8],
    three: &'a [u8],
) -> Result<Text, NoMemory>
    ensures { IfOk result (λ text. text ≡ concat (first.entry.now ∷ one.entry.now ∷ second.entry.now ∷ two.entry.now ∷ third.entry.now ∷ three.entry.now ∷ codes "\n" ∷ [])) }
{
    let pieces = [first, one, second, two, third, three, b"\n".as_slice()];
    join(alloc, &pieces)
}

/// Whether constraints are met, as a word.
fn meets_word(meets: bool) -> &'static [u8]
    ensures { result.now ≡ meets_text meets }
{
    if meets { b"yes" } else { b"no" }
}

/// The first line of a replay.
fn replay_line(alloc: Global, cell: &[u8], phase: &[u8], meets: bool) -> Result<Text, NoMemory>
    ensures { IfOk result (λ text. text ≡ replay_line cell.now phase.now meets) }
{
    let meets = meets_word(meets);
    line_of(
        alloc, b"replay ", cell, b" phase ", phase, b" meets ", meets,
    )
}

/// A bit as a word.
fn bit_word(bit: bool) -> &'static [u8]
    ensures { result.now ≡ bit_text bit }
{
    if bit { b"1" } else { b"0" }
}

/// What a net shows, as a word.
fn seen_word(seen: Seen) -> &'static [u8]
    ensures { result.now ≡ seen_text seen }
{
    match seen {
        Seen::Bit(bit) => bit_word(bit),
        Seen::Fight => b"fight",
        Seen::Float => b"float",
        Seen::Blocked => b"-",
    }
}

/// The line of a net.
fn seen_line(alloc: Global, net: &[u8], bare: Seen, kept: Seen) -> Result<Text, NoMemory>
    ensures { IfOk result (λ text. text ≡ seen_line net.now bare kept) }
{
    let bare = seen_word(bare);
    line_of(alloc, b"net ", net, b" ", bare, b" ", seen_word(kept))
}

/// A class as a word.
fn class_word(class: Class) -> &'static [u8]
    ensures { result.now ≡ class_text class }
{
    match class {
        Class::Static => b"static",
        Class::Pass => b"pass",
        Class::Domino => b"domino",
    }
}

/// The line of a part.
fn class_line(alloc: Global, cell: &[u8], net: &[u8], class: Class) -> Result<Text, NoMemory>
    ensures { IfOk result (λ text. text ≡ class_line cell.now net.now class) }
{
    line_of(alloc, b"class ", cell, b" ", net, b" ", class_word(class))
}

/// The last line for a generated hierarchy: `generated size N devices D variables V`, with its end.
pub fn generated_line(
    alloc: Global,
    size: u32,
    devices: u64,
    variables: u64,
) -> Result<Text, NoMemory>
    ensures { IfOk result (λ text. text ≡ generated_line size devices variables) }
{
    let size = decimal_text(alloc, u64::from(size))?;
    let devices = decimal_text(alloc, devices)?;
    let variables = decimal_text(alloc, variables)?;
    line_of(
        alloc,
        b"generated size ",
        size.as_bytes(),
        b" devices ",
        devices.as_bytes(),
        b" variables ",
        variables.as_bytes(),
    )
}

/// Whether a net is plain.
fn is_plain(net: &FlatNet) -> bool
    ensures { result ≡ is_plain_kind net.now.kind }
{
    match net.kind {
        NetKind::Supply(_) => false,
        NetKind::Clock(_) => false,
        NetKind::Input => false,
        NetKind::Plain => true,
    }
}

/// Adds the line of a net, if it is plain.
fn add_net(
    alloc: Global,
    lines: &mut Seq<Text>,
    net: &FlatNet,
    bare: Seen,
    kept: Seen,
) -> Result<(), NoMemory>
    ensures { OnOk result (lines.new ≡ lines.old ++ cons_option (net_line net.now bare kept) []) }
{
    if !is_plain(net) {
        return Ok(());
    }
    let line = seen_line(alloc, net.name.as_bytes(), bare, kept)?;
    lines.append(line)
}

/// Adds the lines of the plain nets.
fn add_nets(
    alloc: Global,
    lines: &mut Seq<Text>,
    nets: &[FlatNet],
    bare: &[Seen],
    kept: &[Seen],
) -> Result<(), NoMemory>
    ensures { OnOk result (lines.new ≡ lines.old ++ net_lines nets.now bare.now kept.now) }
{
    let mut nets_left = nets;
    let mut bare_left = bare;
    let mut kept_left = kept;
    'nets: while let (Some((net, nets)), Some((one, bare)), Some((other, kept))) = (
        nets_left.split_first(),
        bare_left.split_first(),
        kept_left.split_first(),
    ) {
        add_net(alloc, lines, net, *one, *other)?;
        nets_left = nets;
        bare_left = bare;
        kept_left = kept;
    }
    Ok(())
}

/// The lines of a replay, each with its end: `replay C phase P meets yes`, or `no`, and for each plain net in net order `net N`
/// with what it shows in the bare and in the kept circuit: `0`, `1`, `fight`, `float`, or `-` where nothing is said of it.
pub fn replay_lines(
    alloc: Global,
    cell: &Text,
    phase: &Text,
    meets: bool,
    circuit: &Circuit,
    values: &Values,
) -> Result<Seq<Text>, NoMemory>
    ensures { IfOk result (λ lines. lines ≡ replay_lines cell.now phase.now meets circuit.now values.now.bare values.now.kept) }
{
    let mut lines = Seq::new(alloc);
    let first = replay_line(alloc, cell.as_bytes(), phase.as_bytes(), meets)?;
    lines.append(first)?;
    let nets = circuit.nets.as_slice();
    add_nets(
        alloc,
        &mut lines,
        nets,
        values.bare.as_slice(),
        values.kept.as_slice(),
    )?;
    Ok(lines)
}

/// The name of a net, empty where there is none.
fn net_name(circuit: &Circuit, net: Net) -> &[u8]
    ensures { result.now ≡ net_name circuit.now net.0 }
{
    match circuit.nets.get(net.0 as usize) {
        Some(net) => net.name.as_bytes(),
        None => &[],
    }
}

/// The lines of the parts of a cell, each with its end: `class C NET static`, or `pass` or `domino`, with the name of the least
/// net of the part.
pub fn class_lines(
    alloc: Global,
    cell: &Text,
    circuit: &Circuit,
    classes: &Seq<ClassLine>,
) -> Result<Seq<Text>, NoMemory>
    ensures { IfOk result (λ lines. lines ≡ class_lines cell.now circuit.now classes.now) }
{
    let mut lines = Seq::new(alloc);
    for part in classes.as_slice() {
        let net = net_name(circuit, part.net);
        let line = class_line(alloc, cell.as_bytes(), net, part.class)?;
        lines.append(line)?;
    }
    Ok(lines)
}
