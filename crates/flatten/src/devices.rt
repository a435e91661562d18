//! Devices whose model has no kind.

ghost use Rattle.std.specs.Prelude.{◌≡◌, find, is_none};
ghost use Rattle.std.specs.Option.{option_copied};
ghost use Rattle.rule_index.specs.Tables.{kind_in};
ghost use Rattle.vrt_model.specs.declared.design.DeviceCard.{DeviceCard as CardValue};

use rule_index::ModelTable;
use vrt_model::DeviceCard;

/// Whether the model of a card has no kind.
fn has_no_kind(models: &ModelTable, card: &DeviceCard) -> bool
    ensures { result ≡ is_none (kind_in models.now card.now.model) }
{
    models.kind(card.model.as_bytes()).is_none()
}

/// The first card whose model has no kind.
pub fn without_kind<'a>(models: &ModelTable, cards: &'a [DeviceCard]) -> Option<&'a DeviceCard>
    ensures { option_copied result ≡ find (λ (d : CardValue). is_none (kind_in models.now d.model)) cards.entry.now }
{
    cards.iter().find(|card| has_no_kind(models, card))
}
