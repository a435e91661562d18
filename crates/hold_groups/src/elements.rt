//! The latch elements of a model by their names.

ghost use Rattle.std.specs.Prelude.{◌≡◌, [], OnOk};
ghost use Rattle.names.specs.Names.{with_names};
ghost use Rattle.vrt_model.specs.Elements.{element_names};
ghost use Rattle.vrt_model.specs.Lists.{has_name, place_of};
ghost use Rattle.hold_groups.specs.Elements.{IsTable};
ghost use Rattle.hold_groups.specs.Grouped.{element_in};

use crate::variable_names::add_element_names;
use names::Names;
use std::alloc::Global;
use vrt_model::{FlatModel, HoldEnd, NoMemory, Seq, Text};

/// The names of the latch elements of a model: in order, and as a set.
pub(crate) struct ElementTable {
    list: Seq<Text>,
    names: Names,
}

/// By hand, so that letting go of one is a call.
impl Drop for ElementTable {
    fn drop(self) {
        let ElementTable {
            list: _list,
            names: _names,
        } = self;
    }
}

/// The place of the first of some names that is this one.
fn place_in(names: &[Text], name: &[u8]) -> Option<usize>
    ensures { result ≡ place_of names.now name.now }
{
    names.iter().position(|other| name == other.as_bytes())
}

impl ElementTable {
    /// No element. It takes no memory.
    pub(crate) fn new(alloc: Global) -> Self
        ensures list { result.list ≡ [] }
        ensures names { result.names ≡ [] }
    {
        ElementTable {
            list: Seq::new(alloc),
            names: Names::new(alloc),
        }
    }

    /// Adds the elements of a model, where there is none yet.
    pub(crate) fn fill(&mut self, alloc: Global, flat: &FlatModel) -> Result<(), NoMemory>
        requires list { self.old.list ≡ [] }
        requires names { self.old.names ≡ [] }
        ensures list { OnOk result (self.new.list ≡ element_names flat.now) }
        ensures table { OnOk result (IsTable self.new) }
    {
        add_element_names(alloc, &mut self.list, flat)?;
        self.names.add_all(self.list.as_slice())?;
        Ok(())
    }

    /// The names of the elements, in order.
    pub(crate) fn list(&self) -> &[Text]
        ensures { result.now ≡ self.now.list }
    {
        self.list.as_slice()
    }

    /// Whether an element has this name.
    pub(crate) fn contains(&self, name: &[u8]) -> bool
        requires { IsTable self.now }
        ensures { result ≡ has_name self.now.list name.now }
    {
        self.names.contains(name)
    }

    /// The number of the first element of a name. Where no two have one name, it is found by its hash.
    fn place(&self, name: &[u8]) -> Option<usize>
        requires { IsTable self.now }
        ensures { result ≡ place_of self.now.list name.now }
    {
        if self.names.len() == self.list.len() {
            self.names.place(name)
        } else {
            place_in(self.list.as_slice(), name)
        }
    }

    /// The number of the element of the checked cell's model that an end is.
    pub(crate) fn element_of(&self, end: &HoldEnd) -> Option<usize>
        requires { IsTable self.now }
        ensures { result ≡ element_in self.now.list end.now }
    {
        match end {
            HoldEnd::Own(_) => None,
            HoldEnd::Latch {
                instance: Some(_),
                ..
            } => None,
            HoldEnd::Latch {
                instance: None,
                element,
            } => self.place(element.as_bytes()),
        }
    }
}
