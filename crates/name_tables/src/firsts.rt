//! What was noted first under a name.

ghost use Rattle.std.specs.Prelude.{◌≡◌, ◌++◌, ◌∷◌, [], ℕ, List, Some, None, OnOk, bytes_eq, cond};
ghost use Rattle.std.specs.Option.{option_copied, option_or};
ghost use Rattle.names.specs.Names.{with_name};
ghost use Rattle.name_tables.specs.Firsts.{IsEven, IsFresh, value_in};
ghost use Rattle.vrt_model.specs.Lists.{has_name};

use names::Names;
use std::alloc::Global;
use vrt_model::{NoMemory, Seq};

/// For each name the value that was noted first under it. A name is found by its hash, in a time that does not grow with
/// the number of names.
pub struct FirstValues<T> {
    names: Names,
    values: Seq<T>,
}

/// By hand, so that a table is let go by a call where one is owned.
impl<T: Drop> Drop for FirstValues<T> {
    fn drop(self) {
        let FirstValues {
            names: _names,
            values: _values,
        } = self;
    }
}

impl<T: Drop> FirstValues<T> {
    /// With no name. It takes no memory.
    pub fn new(alloc: Global) -> Self
        ensures { IsFresh result }
    {
        FirstValues {
            names: Names::new(alloc),
            values: Seq::new(alloc),
        }
    }

    /// Whether a value was noted under a name.
    pub(crate) fn has(&self, name: &[u8]) -> bool
        ensures { result ≡ has_name self.now.names name.now }
    {
        self.names.contains(name)
    }

    /// Adds a value under a name that has none.
    pub(crate) fn add(&mut self, name: &[u8], value: T) -> Result<(), NoMemory>
        ensures names { OnOk result (self.new.names ≡ with_name self.old.names name.now) }
        ensures values { OnOk result (self.new.values ≡ self.old.values ++ value ∷ []) }
    {
        self.names.number(name)?;
        self.values.append(value)
    }

    /// Notes a value under a name, unless the name has one.
    pub fn note(&mut self, name: &[u8], value: T) -> Result<(), NoMemory>
        requires { IsEven self.old }
        ensures even { OnOk result (IsEven self.new) }
        ensures first { OnOk result ((other : List ℕ) → value_in self.new other ≡ option_or (value_in self.old other) (cond (bytes_eq name.now other) (Some value) None)) }
    {
        if !self.has(name) {
            self.add(name, value)?;
        }
        Ok(())
    }

    /// The value under a name. None exactly where none was noted.
    pub fn get(&self, name: &[u8]) -> Option<&T>
        ensures { option_copied result ≡ value_in self.now name.now }
    {
        match self.names.place(name) {
            Some(place) => self.values.get(place),
            None => None,
        }
    }
}
