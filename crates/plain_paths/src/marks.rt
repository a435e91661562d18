//! Which nets a value reaches.

ghost use Rattle.std.specs.Prelude.{◌≡◌, ℕ, ◌<◌, ◌⊎◌, ◌↔◌, Bool, false, true, length, slice_index, replicate, IfOk, All};
ghost use Rattle.plain_paths.specs.Channels.{HasChannels, IsOver, IsInRange, channel_of};
ghost use Rattle.vrt_model.specs.Circuits.{IsFlat};
ghost use Rattle.plain_paths.specs.Marks.{Marked, MarksPass};
ghost use Rattle.plain_paths.specs.declared.channels.Channel.{Channel as ChannelValue};
ghost use Rattle.vrt_model.proofs.Clear.{HopFits, RootFits};
ghost use Rattle.vrt_model.proofs.Marks.{HasRootMarks};
ghost use Rattle.vrt_model.specs.Networks.{HasBound};
ghost use Rattle.vrt_model.specs.Levels.{source_level};
ghost use Rattle.vrt_model.specs.Lists.{At, Among, bit_at, MarksGrow, mark_at};
ghost use Rattle.vrt_model.specs.Path.{IsOn, Network};
ghost use Rattle.vrt_model.specs.Reading.{is_given};
ghost use Rattle.vrt_model.specs.Response.{IsStrength, Reaches};
ghost use Rattle.vrt_model.specs.declared.circuit.Device.{Device};
ghost use Rattle.vrt_model.specs.declared.circuit.FlatNet.{FlatNet as FlatNetValue};
ghost use Rattle.vrt_model.specs.declared.circuit.Hold.{Hold as HoldValue};

use crate::channels::{Channel, bit};
use std::alloc::Global;
use vrt_model::{Circuit, FlatNet, NetKind, NoMemory};

/// Marks one net where another is marked and the device between them fits.
fn spread(marks: &mut [bool], from: usize, to: usize, fits: bool) -> bool
    requires from { from < length marks.old }
    requires to { to < length marks.old }
    ensures grown { MarksGrow marks.old marks.new }
    ensures spread { fits ≡ true → mark_at marks.old from ≡ true → mark_at marks.new to ≡ true }
    ensures only { (n : ℕ) → mark_at marks.new n ≡ true → (mark_at marks.old n ≡ true) ⊎ ((n ≡ to) × (fits ≡ true) × (mark_at marks.old from ≡ true)) }
    ensures same { result ≡ false → marks.new ≡ marks.old }
{
    if fits && marks[from] && !marks[to] {
        marks[to] = true;
        true
    } else {
        false
    }
}

/// Marks what is reached over a channel, in both directions, and says whether anything changed. A signal goes on where
/// the lesser of its net's strength and the channel's level is the strength of the net beyond: else a stronger one
/// blocks it there.
fn spread_both(channel: &Channel, strengths: &[u8], marks: &mut [bool]) -> bool
    requires fits { IsInRange (length marks.old) channel.now }
    requires len { length strengths.now ≡ length marks.old }
    ensures grown { MarksGrow marks.old marks.new }
    ensures spread { MarksPass strengths.now channel.now marks.old marks.new }
    ensures marked { (w : Network) (v : Bool) (d : Device) → IsOn w d → channel_of d ≡ channel.now → Marked w strengths.now v marks.old → Marked w strengths.now v marks.new }
    ensures same { result ≡ false → marks.new ≡ marks.old }
{
    let left = channel.left as usize;
    let right = channel.right as usize;
    let forth_fits = strengths[left].min(channel.level) == strengths[right];
    let back_fits = strengths[right].min(channel.level) == strengths[left];
    let forth = spread(marks, left, right, forth_fits);
    let back = spread(marks, right, left, back_fits);
    forth | back
}

/// Goes over the channels once, in place, and says whether anything changed.
fn spread_round(channels: &[Channel], strengths: &[u8], marks: &mut [bool]) -> bool
    requires fits { All (IsInRange (length marks.old)) channels.now }
    requires len { length strengths.now ≡ length marks.old }
    ensures grown { MarksGrow marks.old marks.new }
    ensures spread { (ch : ChannelValue) → Among channels.now ch → MarksPass strengths.now ch marks.old marks.new }
    ensures marked { (w : Network) (v : Bool) → HasChannels w channels.now → Marked w strengths.now v marks.old → Marked w strengths.now v marks.new }
    ensures same { result ≡ false → marks.new ≡ marks.old }
{
    let mut changed = false;
    for channel in channels {
        let grew = spread_both(channel, strengths, marks);
        changed |= grew;
    }
    changed
}

/// Marks a net where the test says so.
fn mark(marks: &mut [bool], at: usize, fits: bool)
    requires { at < length marks.old }
    ensures grown { MarksGrow marks.old marks.new }
    ensures marked { fits ≡ true → mark_at marks.new at ≡ true }
    ensures only { (n : ℕ) → mark_at marks.new n ≡ true → (mark_at marks.old n ≡ true) ⊎ ((n ≡ at) × (fits ≡ true)) }
{
    if fits {
        marks[at] = true;
    }
}

/// Whether a net is a root by its kind.
fn is_root(net: &FlatNet) -> bool
    ensures { result ≡ is_given net.now.kind }
{
    match net.kind {
        NetKind::Plain => false,
        _ => true,
    }
}

/// Whether a root is there, is as strong as its net, and has the value.
fn fits_root(is: bool, level: u8, strength: u8, bit: bool, value: bool) -> bool
    ensures { (result ≡ true) ↔ ((is ≡ true) × (level ≡ strength) × (bit ≡ value)) }
{
    is && level == strength && bit == value
}

/// Marks the nets that are roots of the value by their kinds, and as strong as the net.
fn mark_given(
    circuit: &Circuit,
    reading: &[bool],
    strengths: &[u8],
    value: bool,
    marks: &mut [bool],
)
    requires len { length marks.old ≡ length circuit.now.nets }
    requires strengths_len { length strengths.now ≡ length marks.old }
    ensures grown { MarksGrow marks.old marks.new }
    ensures given { (at : ℕ) (net : FlatNetValue) → At circuit.now.nets at net → is_given net.kind ≡ true → slice_index strengths.now at ≡ source_level circuit.now → bit_at reading.now at ≡ value → mark_at marks.new at ≡ true }
    ensures marked { (w : Network) → IsOver circuit.now w → w.given ≡ bit_at reading.now → Marked w strengths.now value marks.old → Marked w strengths.now value marks.new }
{
    let source = circuit.source_level();
    for (at, net) in circuit.nets.as_slice().iter().enumerate() {
        let fits = fits_root(is_root(net), source, strengths[at], bit(reading, at), value);
        mark(marks, at, fits);
    }
}

/// Marks the nets of the holds that are roots of the value, and as strong as the net.
fn mark_holds(circuit: &Circuit, held: &[bool], strengths: &[u8], value: bool, marks: &mut [bool])
    requires circuit { IsFlat circuit.now }
    requires len { length marks.old ≡ length circuit.now.nets }
    requires strengths_len { length strengths.now ≡ length marks.old }
    ensures grown { MarksGrow marks.old marks.new }
    ensures holds { (at : ℕ) (hold : HoldValue) → At circuit.now.holds at hold → hold.size ≡ slice_index strengths.now hold.net.0 → bit_at held.now at ≡ value → mark_at marks.new hold.net.0 ≡ true }
    ensures marked { (w : Network) → IsOver circuit.now w → w.held ≡ bit_at held.now → Marked w strengths.now value marks.old → Marked w strengths.now value marks.new }
{
    for (at, hold) in circuit.holds.as_slice().iter().enumerate() {
        let net = hold.net.0 as usize;
        let fits = fits_root(true, hold.size, strengths[net], bit(held, at), value);
        mark(marks, net, fits);
    }
}

/// Spreads the marks in rounds until none changes, in at most as many rounds as there are nets.
pub(crate) fn spread_all(channels: &[Channel], strengths: &[u8], value: bool, marks: &mut [bool])
    requires fits { All (IsInRange (length marks.old)) channels.now }
    requires len { length strengths.now ≡ length marks.old }
    ensures { (w : Network) → HasBound w (length marks.old) → HasChannels w channels.now → ((n : ℕ) → IsStrength w n (slice_index strengths.now n)) → HasRootMarks w (RootFits (slice_index strengths.now) value) (HopFits (slice_index strengths.now)) (mark_at marks.old) → Marked w strengths.now value marks.old → (n : ℕ) → (mark_at marks.new n ≡ true) ↔ Reaches w n value }
{
    'rounds: for _count in 0..marks.len() {
        if !spread_round(channels, strengths, marks) {
            return;
        }
    }
}

/// As many marks as there are nets, none set.
fn no_marks(alloc: Global, count: usize) -> Result<Vec<bool>, NoMemory>
    ensures { IfOk result (λ t. t.items ≡ replicate count false) }
{
    match vec![in alloc; false; count] {
        Ok(marks) => Ok(marks),
        Err(_) => Err(NoMemory),
    }
}

/// Marks what the value reaches, where nothing is marked yet.
fn mark_reached(
    circuit: &Circuit,
    channels: &[Channel],
    reading: &[bool],
    held: &[bool],
    strengths: &[u8],
    value: bool,
    marks: &mut [bool],
)
    requires circuit { IsFlat circuit.now }
    requires fits { All (IsInRange (length circuit.now.nets)) channels.now }
    requires len { length strengths.now ≡ length circuit.now.nets }
    requires none { marks.old ≡ replicate (length circuit.now.nets) false }
    ensures { (w : Network) → IsOver circuit.now w → w.given ≡ bit_at reading.now → w.held ≡ bit_at held.now → HasBound w (length circuit.now.nets) → HasChannels w channels.now → ((n : ℕ) → IsStrength w n (slice_index strengths.now n)) → (n : ℕ) → (mark_at marks.new n ≡ true) ↔ Reaches w n value }
{
    mark_given(circuit, reading, strengths, value, marks);
    mark_holds(circuit, held, strengths, value, marks);
    spread_all(channels, strengths, value, marks);
}

/// At which nets a clear path from a root of the value ends, in a circuit where these are the channels of the
/// conducting devices, the bits of the given nets by net, the bits of the holds by place, and the strengths by net.
pub(crate) fn reached(
    alloc: Global,
    circuit: &Circuit,
    channels: &[Channel],
    reading: &[bool],
    held: &[bool],
    strengths: &[u8],
    value: bool,
) -> Result<Vec<bool>, NoMemory>
    requires circuit { IsFlat circuit.now }
    requires fits { All (IsInRange (length circuit.now.nets)) channels.now }
    requires len { length strengths.now ≡ length circuit.now.nets }
    ensures len { IfOk result (λ t. length t.items ≡ length circuit.now.nets) }
    ensures reached { IfOk result (λ t. (w : Network) → IsOver circuit.now w → w.given ≡ bit_at reading.now → w.held ≡ bit_at held.now → HasBound w (length circuit.now.nets) → HasChannels w channels.now → ((n : ℕ) → IsStrength w n (slice_index strengths.now n)) → (n : ℕ) → (mark_at t.items n ≡ true) ↔ Reaches w n value) }
{
    let mut marks = no_marks(alloc, circuit.nets.len())?;
    mark_reached(
        circuit, channels, reading, held, strengths, value, &mut marks,
    );
    Ok(marks)
}
