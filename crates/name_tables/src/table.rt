//! Values by name.

ghost use Rattle.std.specs.Prelude.{◌≡◌, [], OnOk};
ghost use Rattle.name_tables.specs.Tables.{Adds, IsTable, first_value};
ghost use Rattle.vrt_model.specs.Lists.{has_name};

use crate::firsts::FirstValues;
use names::Names;
use std::alloc::Global;
use vrt_model::NoMemory;

/// Values by name: under each name the first of its values, and whether there is a second. A name is found by its hash,
/// in a time that does not grow with the number of names.
pub struct NameTable<V> {
    firsts: FirstValues<V>,
    again: Names,
}

/// By hand, so that letting go of one is a call.
impl<V: Drop> Drop for NameTable<V> {
    fn drop(self) {
        let NameTable {
            firsts: _firsts,
            again: _again,
        } = self;
    }
}

impl<V: Copy> NameTable<V> {
    /// No values. It takes no memory.
    pub fn new(alloc: Global) -> Self
        ensures { IsTable [] result }
    {
        NameTable {
            firsts: FirstValues::new(alloc),
            again: Names::new(alloc),
        }
    }

    /// The first value under a name.
    pub fn first(&self, name: &[u8]) -> Option<V>
        ensures { result ≡ first_value self.now name.now }
    {
        self.firsts.get(name).copied()
    }

    /// Whether there is a second value under a name.
    pub fn has_second(&self, name: &[u8]) -> bool
        ensures { result ≡ has_name self.now.again name.now }
    {
        self.again.contains(name)
    }

    /// Adds a value under a name, behind those that are there.
    pub fn add(&mut self, name: &[u8], value: V) -> Result<(), NoMemory>
        ensures { OnOk result (Adds name.now value self.old self.new) }
    {
        if self.firsts.has(name) {
            self.again.number(name)?;
            return Ok(());
        }
        self.firsts.add(name, value)?;
        Ok(())
    }
}
