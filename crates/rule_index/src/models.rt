//! What `device` rules and `.model` cards say of device models.

ghost use Rattle.std.specs.Prelude.{◌≡◌, ℕ, List, OnOk};
ghost use Rattle.name_tables.specs.Firsts.{IsFresh, value_in};
ghost use Rattle.rule_index.specs.Tables.{AreFreshModels, AreModels, card_kind, declared_device, kind_in, level_in};

use name_tables::FirstValues;
use std::alloc::Global;
use vrt_model::{Design, DeviceRule, Kind, ModelCard, NoMemory, Rules};

/// The kind and the level that a `device` rule declares.
#[derive(Clone, Copy)]
pub struct Declared {
    /// Whether the transistors of the model conduct at gate 1 or at gate 0.
    pub kind: Kind,
    /// The level of these transistors, one of devices.
    pub level: u8,
}

/// What is said of device models: by `device` rules, and by `.model` cards.
pub struct ModelTable {
    /// What `device` rules declare, by the name of the device model. It goes before the cards.
    pub rules: FirstValues<Declared>,
    /// The kinds of `.model` cards, by the name of the device model.
    pub cards: FirstValues<Kind>,
}

/// By hand, so that letting go of one is a call.
impl Drop for ModelTable {
    fn drop(self) {
        let ModelTable {
            rules: _rules,
            cards: _cards,
        } = self;
    }
}

/// Notes the kinds and levels that `device` rules declare, in a table with nothing noted.
fn note_device_rules(
    table: &mut FirstValues<Declared>,
    rules: &[DeviceRule],
) -> Result<(), NoMemory>
    requires { IsFresh table.old }
    ensures { OnOk result ((name : List ℕ) → value_in table.new name ≡ declared_device rules.now name) }
{
    for rule in rules {
        let declared = Declared {
            kind: rule.kind,
            level: rule.level,
        };
        table.note(rule.model.as_bytes(), declared)?;
    }
    Ok(())
}

/// Notes the kinds of `.model` cards, in a table with nothing noted.
fn note_cards(table: &mut FirstValues<Kind>, cards: &[ModelCard]) -> Result<(), NoMemory>
    requires { IsFresh table.old }
    ensures { OnOk result ((name : List ℕ) → value_in table.new name ≡ card_kind cards.now name) }
{
    for card in cards {
        table.note(card.name.as_bytes(), card.kind)?;
    }
    Ok(())
}

impl ModelTable {
    /// With nothing said. It takes no memory.
    pub(crate) fn new(alloc: Global) -> Self
        ensures { AreFreshModels result }
    {
        ModelTable {
            rules: FirstValues::new(alloc),
            cards: FirstValues::new(alloc),
        }
    }

    /// Notes what is said of models, where nothing is said yet.
    pub(crate) fn fill(&mut self, design: &Design, rules: &Rules) -> Result<(), NoMemory>
        requires { AreFreshModels self.old }
        ensures { OnOk result (AreModels design.now rules.now self.new) }
    {
        note_device_rules(&mut self.rules, rules.devices.as_slice())?;
        note_cards(&mut self.cards, design.models.as_slice())?;
        Ok(())
    }

    /// The kind of the devices of a model: a `device` rule goes before a `.model` card.
    pub fn kind(&self, model: &[u8]) -> Option<Kind>
        ensures { result ≡ kind_in self.now model.now }
    {
        match self.rules.get(model) {
            Some(declared) => Some(declared.kind),
            None => match self.cards.get(model) {
                Some(kind) => Some(*kind),
                None => None,
            },
        }
    }

    /// The level that a `device` rule gives the devices of a model. None exactly where no rule names it.
    pub fn level(&self, model: &[u8]) -> Option<u8>
        ensures { result ≡ level_in self.now model.now }
    {
        match self.rules.get(model) {
            Some(declared) => Some(declared.level),
            None => None,
        }
    }
}
