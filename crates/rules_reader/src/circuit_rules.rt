//! The rules of lines on nets, devices, cells and models.

ghost use Rattle.std.specs.Prelude.{◌≡◌, ◌++◌, ◌∷◌, [], map, unwrap_or, IfOk, OnOk};
ghost use Rattle.rules_reader.specs.Tables.{keeper_rule, supply_rule};

use crate::texts::{append, copy, copy_two};
use rules_lines::Signed;
use std::alloc::Global;
use text_lines::{WordList, first_word};
use vrt_model::{
    DeviceRule, HoldRule, InstanceMatchRule, KeeperRule, Kind, MatchRule, NoMemory, PairRule,
    PortRule, Seq, StrengthRule, SupplyRule, Text,
};

/// The rule of a net.
fn add_supply(
    alloc: Global,
    rules: &mut Seq<SupplyRule>,
    line: u32,
    value: bool,
    net: &[u8],
) -> Result<(), NoMemory>
    ensures { OnOk result (rules.new ≡ rules.old ++ supply_rule line value net.now ∷ []) }
{
    let net = Text::from_bytes(alloc, net)?;
    append(rules, SupplyRule { line, value, net })
}

/// One rule for each net.
pub fn add_supplies(
    alloc: Global,
    rules: &mut Seq<SupplyRule>,
    line: u32,
    value: bool,
    nets: &WordList,
) -> Result<(), NoMemory>
    ensures { OnOk result (rules.new ≡ rules.old ++ map (supply_rule line value) nets.now) }
{
    let mut rest = nets.as_line();
    'nets: while let Some((net, behind)) = first_word(rest) {
        add_supply(alloc, rules, line, value, net)?;
        rest = behind;
    }
    Ok(())
}

/// The kind and level of a model.
pub fn add_device(
    alloc: Global,
    rules: &mut Seq<DeviceRule>,
    line: u32,
    model: &Text,
    kind: Kind,
    level: Option<u8>,
) -> Result<(), NoMemory>
    ensures { OnOk result (rules.new ≡ rules.old ++ record { line = line; model = model.now; kind = kind; level = unwrap_or level 0 } ∷ []) }
{
    let rule = DeviceRule {
        line,
        model: copy(alloc, model)?,
        kind,
        level: level.unwrap_or(0),
    };
    append(rules, rule)
}

/// The level of a device of a cell.
pub fn add_strength(
    alloc: Global,
    rules: &mut Seq<StrengthRule>,
    line: u32,
    cell: &Text,
    device: &Text,
    level: Option<u8>,
) -> Result<(), NoMemory>
    ensures { OnOk result (rules.new ≡ rules.old ++ record { line = line; cell = cell.now; device = device.now; level = unwrap_or level 0 } ∷ []) }
{
    let (cell, device) = copy_two(alloc, cell, device)?;
    let rule = StrengthRule {
        line,
        cell,
        device,
        level: level.unwrap_or(0),
    };
    append(rules, rule)
}

fn copy_model(alloc: Global, model: &Option<Text>) -> Result<Option<Text>, NoMemory>
    ensures { IfOk result (λ m. m ≡ model.now) }
{
    match model {
        Some(model) => {
            let model = copy(alloc, model)?;
            Ok(Some(model))
        }
        None => Ok(None),
    }
}

/// The model of a cell, if it has one.
pub fn add_pair(
    alloc: Global,
    rules: &mut Seq<PairRule>,
    line: u32,
    cell: &Text,
    model: &Option<Text>,
) -> Result<(), NoMemory>
    ensures { OnOk result (rules.new ≡ rules.old ++ record { line = line; cell = cell.now; model = model.now } ∷ []) }
{
    let model = copy_model(alloc, model)?;
    let cell = copy(alloc, cell)?;
    let rule = PairRule { line, cell, model };
    append(rules, rule)
}

/// The signal of a port.
pub fn add_port(
    alloc: Global,
    rules: &mut Seq<PortRule>,
    line: u32,
    cell: &Text,
    port: &Text,
    signal: &Text,
) -> Result<(), NoMemory>
    ensures { OnOk result (rules.new ≡ rules.old ++ record { line = line; cell = cell.now; port = port.now; signal = signal.now } ∷ []) }
{
    let signal = copy(alloc, signal)?;
    let (cell, port) = copy_two(alloc, cell, port)?;
    let rule = PortRule {
        line,
        cell,
        port,
        signal,
    };
    append(rules, rule)
}

/// A net that holds its bit.
pub fn add_hold(
    alloc: Global,
    rules: &mut Seq<HoldRule>,
    line: u32,
    cell: &Text,
    net: &Text,
    size: Option<u8>,
) -> Result<(), NoMemory>
    ensures { OnOk result (rules.new ≡ rules.old ++ record { line = line; cell = cell.now; net = net.now; size = unwrap_or size 0 } ∷ []) }
{
    let (cell, net) = copy_two(alloc, cell, net)?;
    let rule = HoldRule {
        line,
        cell,
        net,
        size: size.unwrap_or(0),
    };
    append(rules, rule)
}

/// The rule of a device.
fn add_keeper(
    alloc: Global,
    rules: &mut Seq<KeeperRule>,
    line: u32,
    cell: &Text,
    device: &[u8],
) -> Result<(), NoMemory>
    ensures { OnOk result (rules.new ≡ rules.old ++ keeper_rule line cell.now device.now ∷ []) }
{
    let device = Text::from_bytes(alloc, device)?;
    let cell = copy(alloc, cell)?;
    append(rules, KeeperRule { line, cell, device })
}

/// One rule for each device.
pub fn add_keepers(
    alloc: Global,
    rules: &mut Seq<KeeperRule>,
    line: u32,
    cell: &Text,
    devices: &WordList,
) -> Result<(), NoMemory>
    ensures { OnOk result (rules.new ≡ rules.old ++ map (keeper_rule line cell.now) devices.now) }
{
    let mut rest = devices.as_line();
    'devices: while let Some((device, behind)) = first_word(rest) {
        add_keeper(alloc, rules, line, cell, device)?;
        rest = behind;
    }
    Ok(())
}

/// The latch of a net.
pub fn add_match(
    alloc: Global,
    rules: &mut Seq<MatchRule>,
    line: u32,
    cell: &Text,
    net: &Text,
    latch: &Signed,
) -> Result<(), NoMemory>
    ensures { OnOk result (rules.new ≡ rules.old ++ record { line = line; cell = cell.now; net = net.now; latch = latch.now.name; inverted = latch.now.is_inverted } ∷ []) }
{
    let name = copy(alloc, &latch.name)?;
    let (cell, net) = copy_two(alloc, cell, net)?;
    let rule = MatchRule {
        line,
        cell,
        net,
        latch: name,
        inverted: latch.is_inverted,
    };
    append(rules, rule)
}

/// The latch of an instance.
pub fn add_instance_match(
    alloc: Global,
    rules: &mut Seq<InstanceMatchRule>,
    line: u32,
    cell: &Text,
    instance: &Text,
    inner: &Text,
    latch: &Signed,
) -> Result<(), NoMemory>
    ensures { OnOk result (rules.new ≡ rules.old ++ record { line = line; cell = cell.now; «instance» = «instance».now; inner = inner.now; latch = latch.now.name; inverted = latch.now.is_inverted } ∷ []) }
{
    let (inner, name) = copy_two(alloc, inner, &latch.name)?;
    let (cell, instance) = copy_two(alloc, cell, instance)?;
    let rule = InstanceMatchRule {
        line,
        cell,
        instance,
        inner,
        latch: name,
        inverted: latch.is_inverted,
    };
    append(rules, rule)
}
