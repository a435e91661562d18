//! How many nets a cell has of its own, without memory: each name is counted where no later card, and no later net of its card, has it.

ghost use Rattle.std.specs.Prelude.{◌≡◌, ◌≤◌, ◌+◌, ◌++◌, ◌&&◌, ◌||◌, bytes_eq, cond, length, not};
ghost use Rattle.flat_sizes.specs.Mentions.{card_nets, last_count, mentioned, tied};
ghost use Rattle.vrt_model.specs.Lists.{has_name as is_among};
ghost use Rattle.vrt_model.specs.Unrolled.{is_own, mentions, own_nets};
ghost use Rattle.vrt_model.specs.Unsupported.{carried};

use crate::mentions::{has_name, is_mentioned, is_own_net, is_same, is_tied};
use vrt_model::{Cell, Design, DeviceCard, InstanceCard, Rules, Text};

/// One where a net is the cell's own and does not come again, else none.
fn counted(is_own: bool, comes_again: bool) -> u64
    ensures value { result ≡ cond (is_own && not comes_again) 1 0 }
    ensures small { result ≤ 1 }
{
    if is_own && !comes_again { 1 } else { 0 }
}

/// Whether a name comes again: as the next, or in the cards behind.
fn is_next(name: &Text, next: &Text, behind: &[DeviceCard], instances: &[InstanceCard]) -> bool
    ensures { result ≡ (bytes_eq name.now next.now || is_among (mentioned behind.now instances.now) name.now) }
{
    is_same(name, next) || is_mentioned(behind, instances, name)
}

/// Counts the source of a device.
fn own_source(
    design: &Design,
    rules: &Rules,
    cell: &Cell,
    card: &DeviceCard,
    behind: &[DeviceCard],
) -> u64
    ensures value { result ≡ cond (is_own design.now rules.now cell.now card.now.source && not (is_among (mentioned behind.now cell.now.instances) card.now.source)) 1 0 }
    ensures small { result ≤ 1 }
{
    counted(
        is_own_net(design, rules, cell, &card.source),
        is_mentioned(behind, cell.instances.as_slice(), &card.source),
    )
}

/// Counts the gate of a device.
fn own_gate(
    design: &Design,
    rules: &Rules,
    cell: &Cell,
    card: &DeviceCard,
    behind: &[DeviceCard],
) -> u64
    ensures value { result ≡ cond (is_own design.now rules.now cell.now card.now.gate && not (bytes_eq card.now.gate card.now.source || is_among (mentioned behind.now cell.now.instances) card.now.gate)) 1 0 }
    ensures small { result ≤ 1 }
{
    let comes_again = is_next(&card.gate, &card.source, behind, cell.instances.as_slice());
    counted(is_own_net(design, rules, cell, &card.gate), comes_again)
}

/// Whether the drain of a device comes again.
fn drain_again(cell: &Cell, card: &DeviceCard, behind: &[DeviceCard]) -> bool
    ensures { result ≡ (bytes_eq card.now.drain card.now.gate || (bytes_eq card.now.drain card.now.source || is_among (mentioned behind.now cell.now.instances) card.now.drain)) }
{
    is_same(&card.drain, &card.gate)
        || is_next(&card.drain, &card.source, behind, cell.instances.as_slice())
}

/// Counts the drain of a device.
fn own_drain(
    design: &Design,
    rules: &Rules,
    cell: &Cell,
    card: &DeviceCard,
    behind: &[DeviceCard],
) -> u64
    ensures value { result ≡ cond (is_own design.now rules.now cell.now card.now.drain && not (bytes_eq card.now.drain card.now.gate || (bytes_eq card.now.drain card.now.source || is_among (mentioned behind.now cell.now.instances) card.now.drain))) 1 0 }
    ensures small { result ≤ 1 }
{
    counted(
        is_own_net(design, rules, cell, &card.drain),
        drain_again(cell, card, behind),
    )
}

/// Counts the nets of a device that are the cell's own and do not come again.
fn own_of_device(
    design: &Design,
    rules: &Rules,
    cell: &Cell,
    card: &DeviceCard,
    behind: &[DeviceCard],
) -> u64
    ensures { result + last_count (is_own design.now rules.now cell.now) (mentioned behind.now cell.now.instances) ≡ last_count (is_own design.now rules.now cell.now) (card_nets card.now ++ mentioned behind.now cell.now.instances) }
{
    let drain = own_drain(design, rules, cell, card, behind);
    let gate = own_gate(design, rules, cell, card, behind);
    let source = own_source(design, rules, cell, card, behind);
    drain + gate + source
}

/// Counts the own nets that do not come again behind the devices.
fn own_of_devices(design: &Design, rules: &Rules, cell: &Cell) -> u64
    ensures { carried (result + last_count (is_own design.now rules.now cell.now) (tied cell.now.instances)) ≡ carried (last_count (is_own design.now rules.now cell.now) (mentions cell.now)) }
{
    let mut count = 0u64;
    let mut left = cell.devices.as_slice();
    'cards: while let Some((card, behind)) = left.split_first() {
        count = count.saturating_add(own_of_device(design, rules, cell, card, behind));
        left = behind;
    }
    count
}

/// Counts a net that is tied to an instance, by those behind it on its card and the cards behind.
fn own_of_net(
    design: &Design,
    rules: &Rules,
    cell: &Cell,
    net: &Text,
    later: &[Text],
    behind: &[InstanceCard],
) -> u64
    ensures { result ≡ cond (is_own design.now rules.now cell.now net.now && not (is_among (later.now ++ tied behind.now) net.now)) 1 0 }
{
    let comes_again = has_name(later, net) || is_tied(behind, net);
    counted(is_own_net(design, rules, cell, net), comes_again)
}

/// Counts the nets of an instance that are the cell's own and do not come again.
fn own_of_nets(
    design: &Design,
    rules: &Rules,
    cell: &Cell,
    nets: &[Text],
    behind: &[InstanceCard],
) -> u64
    ensures { carried (result + last_count (is_own design.now rules.now cell.now) (tied behind.now)) ≡ carried (last_count (is_own design.now rules.now cell.now) (nets.now ++ tied behind.now)) }
{
    let mut count = 0u64;
    let mut left = nets;
    'nets: while let Some((net, later)) = left.split_first() {
        count = count.saturating_add(own_of_net(design, rules, cell, net, later, behind));
        left = later;
    }
    count
}

/// Counts the own nets that are tied to instances.
fn own_of_instances(design: &Design, rules: &Rules, cell: &Cell) -> u64
    ensures { result ≡ carried (last_count (is_own design.now rules.now cell.now) (tied cell.now.instances)) }
{
    let mut count = 0u64;
    let mut left = cell.instances.as_slice();
    'cards: while let Some((card, behind)) = left.split_first() {
        let more = own_of_nets(design, rules, cell, card.nets.as_slice(), behind);
        count = count.saturating_add(more);
        left = behind;
    }
    count
}

/// How many nets are the cell's own. Its time grows with the square of what its cards name.
pub(crate) fn own_count(design: &Design, rules: &Rules, cell: &Cell) -> u64
    ensures { result ≡ carried (length (own_nets design.now rules.now cell.now)) }
{
    let first = own_of_devices(design, rules, cell);
    first.saturating_add(own_of_instances(design, rules, cell))
}
