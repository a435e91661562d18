//! The strength of each net, and which values reach it.

ghost use Rattle.std.specs.Prelude.{◌≡◌, ℕ, ◌<◌, Bool, All, length, vec_len, IfOk};
ghost use Rattle.plain_paths.specs.Channels.{HasChannels, IsInRange, IsOver};
ghost use Rattle.plain_paths.specs.Responses.{meaning_of};
ghost use Rattle.vrt_model.specs.Circuits.{IsFlat};
ghost use Rattle.vrt_model.specs.Lists.{bit_at};
ghost use Rattle.vrt_model.specs.Networks.{HasBound};
ghost use Rattle.vrt_model.specs.Path.{Network};
ghost use Rattle.vrt_model.specs.Signals.{AreSignals, response_by};
ghost use Rattle.vrt_model.specs.State.{network_of};

use crate::channels::{Channel, channels};
use crate::marks::reached;
use crate::strengths::strengths;
use std::alloc::Global;
use vrt_model::{Circuit, NoMemory};

/// What a net shows: both values reach it, neither does, or the one that does.
#[derive(Clone, Copy, Debug)]
pub enum Response {
    /// Clear paths from roots of both values end at the net.
    Fight,
    /// No clear path ends at the net.
    Float,
    /// Clear paths from roots of this value alone end at the net.
    Bit(bool),
}

/// The signals of a circuit at one valuation, by the numbers of the nets: the strength of each net, from 0 to the source level, and
/// whether a clear path from a root of value 0, and of value 1, ends there.
pub struct Signals {
    /// The greatest level of a path that ends at the net, and 0 where none does (Bryant 1984).
    pub strengths: Vec<u8>,
    /// Whether the value 0 reaches the net.
    pub zeros: Vec<bool>,
    /// Whether the value 1 reaches the net.
    pub ones: Vec<bool>,
}

/// By hand, so that letting go of one is a call.
impl Drop for Signals {
    fn drop(self) {
        let Signals {
            strengths: _strengths,
            zeros: _zeros,
            ones: _ones,
        } = self;
    }
}

impl Signals {
    /// What a net shows.
    pub fn response(&self, net: usize) -> Response
        requires zeros { net < vec_len self.now.zeros }
        requires ones { net < vec_len self.now.ones }
        ensures { meaning_of result ≡ response_by (bit_at self.now.zeros.items net) (bit_at self.now.ones.items net) }
    {
        match (self.zeros[net], self.ones[net]) {
            (true, true) => Response::Fight,
            (true, false) => Response::Bit(false),
            (false, true) => Response::Bit(true),
            (false, false) => Response::Float,
        }
    }
}

/// The signals of a circuit where these are the channels of the conducting devices, the bits of the given nets by net, and
/// the bits of the holds by place.
pub(crate) fn signals_over(
    alloc: Global,
    circuit: &Circuit,
    channels: &[Channel],
    reading: &[bool],
    held: &[bool],
) -> Result<Signals, NoMemory>
    requires circuit { IsFlat circuit.now }
    requires fits { All (IsInRange (length circuit.now.nets)) channels.now }
    ensures strengths { IfOk result (λ t. vec_len t.strengths ≡ length circuit.now.nets) }
    ensures zeros { IfOk result (λ t. vec_len t.zeros ≡ length circuit.now.nets) }
    ensures ones { IfOk result (λ t. vec_len t.ones ≡ length circuit.now.nets) }
    ensures signals { IfOk result (λ t. (w : Network) → IsOver circuit.now w → w.given ≡ bit_at reading.now → w.held ≡ bit_at held.now → HasBound w (length circuit.now.nets) → HasChannels w channels.now → AreSignals w t.strengths.items t.zeros.items t.ones.items) }
{
    let levels = strengths(alloc, circuit, channels)?;
    let level_at = levels.as_slice();
    let zeros = reached(alloc, circuit, channels, reading, held, level_at, false)?;
    let ones = reached(alloc, circuit, channels, reading, held, level_at, true)?;
    Ok(Signals {
        strengths: levels,
        zeros,
        ones,
    })
}

/// The signals of the bare or the kept circuit at one valuation: at a reading, which has the bits of the gates and of
/// the nets with given values, by net, and at the bits of the holds, by their places. A net or a hold past the end of
/// its list has the bit 0. Nothing but want of memory refuses.
pub fn signals_at(
    alloc: Global,
    circuit: &Circuit,
    bare: bool,
    reading: &[bool],
    held: &[bool],
) -> Result<Signals, NoMemory>
    requires { IsFlat circuit.now }
    ensures strengths { IfOk result (λ t. vec_len t.strengths ≡ length circuit.now.nets) }
    ensures zeros { IfOk result (λ t. vec_len t.zeros ≡ length circuit.now.nets) }
    ensures ones { IfOk result (λ t. vec_len t.ones ≡ length circuit.now.nets) }
    ensures signals { IfOk result (λ t. (driven : ℕ → Bool) → AreSignals (network_of circuit.now bare (bit_at held.now) (record { reading = bit_at reading.now; driven = driven })) t.strengths.items t.zeros.items t.ones.items) }
{
    let passing = channels(alloc, circuit, bare, reading)?;
    let signals = signals_over(alloc, circuit, passing.as_slice(), reading, held)?;
    Ok(signals)
}
