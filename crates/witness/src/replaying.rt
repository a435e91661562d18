//! The values of the nets of a circuit at one valuation.

ghost use Rattle.std.specs.Prelude.{◌≡◌, ℕ, true, false, length, IfOk};
ghost use Rattle.channel_parts.specs.PartLists.{AreParts, IsPartList};
ghost use Rattle.channel_parts.specs.Ranks.{IsAcyclicArcs};
ghost use Rattle.known_nets.specs.KnownTables.{known_at};
ghost use Rattle.vrt_model.specs.Circuits.{IsFlat};
ghost use Rattle.vrt_model.specs.Lists.{At, bit_at};
ghost use Rattle.vrt_model.specs.State.{Setting};
ghost use Rattle.witness.specs.ReplayAnswers.{ReplayGives};
ghost use Rattle.witness.specs.Replays.{AreValues, HasGivenBits, HasKnownNets, HasSeen, setting_of};
ghost use Rattle.witness.specs.declared.seen.Seen.{Seen as SeenValue};

use crate::rounds::settle;
use crate::seen::Seen;
use crate::starting::start_bits;
use crate::sweeping::sweep;
use crate::values::{ReplayFault, Values};
use crate::viewing::view_all;
use channel_parts::{PartFault, Parts, parts};
use std::alloc::Global;
use vrt_model::{Circuit, NoMemory, Phase, Seq};

/// The parts of the kept circuit.
#[tactic(auto, using(known_nets::proofs::WiredLaws::flat_wired))]
fn kept_parts(alloc: Global, circuit: &Circuit, phase: &Phase) -> Result<Parts, NoMemory>
    requires { IsFlat circuit.now }
    ensures { IfOk result (λ kept. AreParts circuit.now phase.now false (λ n. 0) kept) }
{
    match parts(alloc, circuit, phase, false) {
        Ok(kept) => Ok(kept),
        Err(_) => Err(NoMemory),
    }
}

/// What all nets of the kept circuit show, where nets have these bits and holds those.
fn view_kept(
    alloc: Global,
    circuit: &Circuit,
    phase: &Phase,
    bits: &[Option<bool>],
    held: &[bool],
) -> Result<Seq<Seen>, NoMemory>
    requires { IsFlat circuit.now }
    ensures len { IfOk result (λ list. length list ≡ length circuit.now.nets) }
    ensures seen { IfOk result (λ list. (setting : Setting) → setting.held ≡ bit_at held.now → HasGivenBits circuit.now phase.now setting.inputs (known_at bits.now) → HasKnownNets circuit.now phase.now (known_at bits.now) → (n : ℕ) → (seen : SeenValue) → At list n seen → HasSeen circuit.now phase.now setting (known_at bits.now) false n seen) }
{
    let kept = kept_parts(alloc, circuit, phase)?;
    let list = view_all(alloc, circuit, false, bits, held, kept.list.as_slice())?;
    Ok(list)
}

/// The values of all nets, where these are the parts of the bare circuit.
fn values(
    alloc: Global,
    circuit: &Circuit,
    phase: &Phase,
    held: &[bool],
    inputs: &[bool],
    bare: &Parts,
) -> Result<Values, NoMemory>
    requires flat { IsFlat circuit.now }
    requires parts { IsPartList circuit.now phase.now true bare.now }
    ensures { IfOk result (λ values. IsAcyclicArcs circuit.now phase.now × AreValues circuit.now phase.now (setting_of circuit.now held.now inputs.now) values.bare values.kept) }
{
    let mut bits = start_bits(alloc, circuit, bare.known.as_slice(), inputs)?;
    sweep(alloc, circuit, &mut bits, held, bare.list.as_slice())?;
    let seen = settle(alloc, circuit, &mut bits, held, bare.list.as_slice())?;
    let kept = view_kept(alloc, circuit, phase, bits.as_slice(), held)?;
    Ok(Values { bare: seen, kept })
}

/// What the nets of a circuit without whole instances show at one valuation: `held` has a bit for each hold by its place,
/// and `inputs` one for each input, in the order of their nets.
///
/// In the bare circuit a net shows nothing said (`Blocked`) exactly where some gate of its part shows no bit there, and else
/// its response, which is the same at every reading with the bits that nets show. The kept circuit has the same bits at
/// its gates. A circuit is refused exactly where its arcs lead around, with the cycle that `parts` gives; beside this,
/// nothing but want of memory refuses.
#[tactic(auto, using(known_nets::proofs::WiredLaws::flat_wired))]
pub fn replay(
    alloc: Global,
    circuit: &Circuit,
    phase: &Phase,
    held: &Seq<bool>,
    inputs: &Seq<bool>,
) -> Result<Values, ReplayFault>
    requires { IsFlat circuit.now }
    ensures { ReplayGives circuit.now phase.now (setting_of circuit.now held.now inputs.now) result }
{
    match parts(alloc, circuit, phase, true) {
        Ok(bare) => {
            match values(
                alloc,
                circuit,
                phase,
                held.as_slice(),
                inputs.as_slice(),
                &bare,
            ) {
                Ok(values) => Ok(values),
                Err(_) => Err(ReplayFault::NoMemory),
            }
        }
        Err(PartFault::Cycle { nets }) => Err(ReplayFault::Cycle { nets }),
        Err(PartFault::NoMemory) => Err(ReplayFault::NoMemory),
    }
}
