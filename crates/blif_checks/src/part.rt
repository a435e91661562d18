//! What is judged of a model.

ghost use Rattle.std.specs.Prelude.{◌≡◌};
ghost use Rattle.blif_checks.specs.Parts.{part_of};

use vrt_model::{BlifModel, CoverLine, LatchLine, SubLine, Text};

/// What is judged of a model: what is its own, or its don't-care network as a model of its own.
#[derive(Clone, Copy)]
pub(crate) enum Part {
    /// What is its own.
    Own,
    /// Its don't-care network.
    Network,
}

/// Its outputs.
pub(crate) fn outputs_of(part: Part, model: &BlifModel) -> &[Text]
    ensures { result.now ≡ (part_of part model.now).outputs }
{
    match part {
        Part::Own => model.outputs.as_slice(),
        Part::Network => &[],
    }
}

/// The lines of its outputs.
pub(crate) fn output_lines_of(part: Part, model: &BlifModel) -> &[u32]
    ensures { result.now ≡ (part_of part model.now).output_lines }
{
    match part {
        Part::Own => model.output_lines.as_slice(),
        Part::Network => &[],
    }
}

/// Its covers.
pub(crate) fn covers_of(part: Part, model: &BlifModel) -> &[CoverLine]
    ensures { result.now ≡ (part_of part model.now).covers }
{
    match part {
        Part::Own => model.covers.as_slice(),
        Part::Network => model.exdc.as_slice(),
    }
}

/// Its latches.
pub(crate) fn latches_of(part: Part, model: &BlifModel) -> &[LatchLine]
    ensures { result.now ≡ (part_of part model.now).latches }
{
    match part {
        Part::Own => model.latches.as_slice(),
        Part::Network => &[],
    }
}

/// Its sub-models.
pub(crate) fn subs_of(part: Part, model: &BlifModel) -> &[SubLine]
    ensures { result.now ≡ (part_of part model.now).subs }
{
    match part {
        Part::Own => model.subs.as_slice(),
        Part::Network => &[],
    }
}
