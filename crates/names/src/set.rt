//! Sets of names.

ghost use Rattle.std.specs.Prelude.{◌≡◌, ◌==◌, ◌<◌, ◌∷◌, ◌++◌, ℕ, List, [], Some, true, length, slice_get, map, bytes_eq, IfOk, OnOk, OnErr};
ghost use Rattle.std.specs.List.{position};
ghost use Rattle.names.specs.Names.{with_name, with_names};
ghost use Rattle.vrt_model.specs.Lists.{has_name};

use crate::key::{Key, Sought};
use indexmap::IndexSet;
use std::alloc::Global;
use std::marker::Model;
use vrt_model::{NoMemory, Seq, Text};

/// Whether the set has a name.
fn has_key(set: &IndexSet<Key>, name: &[u8]) -> bool
    ensures { result ≡ has_name set.now.keys name.now }
{
    set.contains(Sought { name })
}

/// The place of a name in the set.
fn place_of_key(set: &IndexSet<Key>, name: &[u8]) -> Option<usize>
    ensures { result ≡ position (bytes_eq name.now) set.now.keys }
{
    set.get_index_of(Sought { name })
}

/// Adds a key, the last, unless it is there.
fn add_key(set: &mut IndexSet<Key>, key: Key) -> Result<usize, NoMemory>
    ensures keys { OnOk result (set.new.keys ≡ with_name set.old.keys key) }
    ensures place { IfOk result (λ n. slice_get set.new.keys n ≡ Some key) }
    ensures err { OnErr result (set.new.keys ≡ set.old.keys) }
{
    match set.insert_full(key) {
        Ok((place, _)) => Ok(place),
        Err(_) => Err(NoMemory),
    }
}

/// Makes room for keys that come: for all of them where there is none yet, and else for half of them, since some may be
/// there already. Where memory is wanting there is no room more, and nothing is refused.
fn make_room(set: &mut IndexSet<Key>, count: usize)
    ensures { set.new.keys ≡ set.old.keys }
{
    let likely = if set.is_empty() {
        count
    } else {
        count.div_ceil(2)
    };
    let _reserved = set.reserve(likely);
}

/// How many keys there are.
fn count_of_keys(set: &IndexSet<Key>) -> usize
    ensures { result ≡ length set.now.keys }
{
    set.len()
}

/// Copies of the keys, in their order.
fn copies_of_keys(alloc: Global, keys: &[Key]) -> Result<Seq<Text>, NoMemory>
    ensures { IfOk result (λ texts. texts ≡ keys.now) }
{
    let mut texts = Seq::new(alloc);
    for key in keys {
        let text = Text::from_bytes(alloc, key.as_bytes())?;
        if texts.push(text).is_err() {
            return Err(NoMemory);
        }
    }
    Ok(texts)
}

/// Copies of the names of a set, in their order.
fn copies_of_names(alloc: Global, set: &IndexSet<Key>) -> Result<Seq<Text>, NoMemory>
    ensures { IfOk result (λ texts. texts ≡ set.now.keys) }
{
    copies_of_keys(alloc, set.as_slice())
}

/// Names without repetition, in the order in which they were first seen and numbered in it from 0. A name is found by
/// its hash, in a time that does not grow with the number of names.
pub struct Names {
    alloc: Global,
    set: IndexSet<Key>,
}

/// By hand, so that letting go of one is a call.
impl Drop for Names {
    fn drop(self) {
        let Names {
            alloc: _alloc,
            set: _set,
        } = self;
    }
}

impl Model for Names {
    ghost use Rattle.std.specs.Prelude.{ℕ, List};

    ghost Value = { List (List ℕ) };

    ghost view = { λ n. n.set.keys };
}

impl Names {
    /// No names. It takes no memory.
    pub fn new(alloc: Global) -> Self
        ensures { result ≡ [] }
    {
        Names {
            alloc,
            set: IndexSet::new(alloc),
        }
    }

    /// How many names there are.
    pub fn len(&self) -> usize
        ensures { result ≡ length self.now }
    {
        count_of_keys(&self.set)
    }

    /// Whether there is no name.
    pub fn is_empty(&self) -> bool
        ensures { result ≡ (length self.now == 0) }
    {
        self.len() == 0
    }

    /// Whether a name is there.
    pub fn contains(&self, name: &[u8]) -> bool
        ensures { result ≡ has_name self.now name.now }
    {
        has_key(&self.set, name)
    }

    /// The number of a name. None exactly where it is not there.
    pub fn place(&self, name: &[u8]) -> Option<usize>
        ensures { result ≡ position (bytes_eq name.now) self.now }
    {
        place_of_key(&self.set, name)
    }

    /// Adds a name as the last, unless it is there, and gives its number.
    fn add(&mut self, name: &[u8]) -> Result<usize, NoMemory>
        ensures names { OnOk result (self.new ≡ with_name self.old name.now) }
        ensures place { IfOk result (λ n. slice_get self.new n ≡ Some name.now) }
        ensures err { OnErr result (self.new ≡ self.old) }
    {
        let key = Key::new(self.alloc, name)?;
        add_key(&mut self.set, key)
    }

    /// The number of a name, which is added as the last if it is not there. Where memory is wanting, the names are as
    /// they were. A name that is there takes no memory.
    pub fn number(&mut self, name: &[u8]) -> Result<usize, NoMemory>
        ensures names { OnOk result (self.new ≡ with_name self.old name.now) }
        ensures place { IfOk result (λ n. slice_get self.new n ≡ Some name.now) }
        ensures err { OnErr result (self.new ≡ self.old) }
    {
        if let Some(place) = self.place(name) {
            return Ok(place);
        }
        self.add(name)
    }

    /// Adds those of some names that are not there, in their order.
    pub fn add_all(&mut self, names: &[Text]) -> Result<(), NoMemory>
        ensures { OnOk result (self.new ≡ with_names self.old names.now) }
    {
        make_room(&mut self.set, names.len());
        for name in names {
            self.number(name.as_bytes())?;
        }
        Ok(())
    }

    /// Copies of the names, in their order.
    pub fn to_texts(&self, alloc: Global) -> Result<Seq<Text>, NoMemory>
        ensures { IfOk result (λ texts. texts ≡ self.now) }
    {
        copies_of_names(alloc, &self.set)
    }
}
