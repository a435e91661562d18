//! The places of rules by the cells that they are of.

ghost use Rattle.std.specs.Prelude.{◌≡◌, ◌<◌, ◌++◌, ◌∷◌, [], ℕ, List, OnOk, length, get_or, set, bytes_eq, cond};
ghost use Rattle.rule_index.specs.Lines.{IsBlank, IsIndex, IsPaired, places_in};

use crate::of_cell::OfCell;
use names::Names;
use std::alloc::Global;
use vrt_model::{NoMemory, Seq};

/// For each cell that a rule is of the places of its rules, by the name of the cell. A name is found by its hash, in a
/// time that does not grow with the number of cells and rules.
pub struct ByCell {
    alloc: Global,
    names: Names,
    groups: Vec<Seq<usize>>,
}

/// By hand, so that letting go of one is a call.
impl Drop for ByCell {
    fn drop(self) {
        let ByCell {
            alloc: _alloc,
            names: _names,
            groups: _groups,
        } = self;
    }
}

/// The group of a number, empty where there is none.
fn group_at(groups: &[Seq<usize>], at: usize) -> &[usize]
    ensures { result.now ≡ get_or groups.now at [] }
{
    match groups.get(at) {
        Some(group) => group.as_slice(),
        None => &[],
    }
}

/// Adds a place at the end of the group of a number.
fn append_at(groups: &mut Vec<Seq<usize>>, at: usize, place: usize) -> Result<(), NoMemory>
    requires { at < length groups.old.items }
    ensures { OnOk result (groups.new.items ≡ set groups.old.items at (get_or groups.old.items at [] ++ place ∷ [])) }
{
    groups[at].append(place)
}

/// Adds a group of one place as the last.
fn append_group(alloc: Global, groups: &mut Vec<Seq<usize>>, place: usize) -> Result<(), NoMemory>
    ensures { OnOk result (groups.new.items ≡ groups.old.items ++ (place ∷ []) ∷ []) }
{
    let mut group = Seq::new(alloc);
    group.append(place)?;
    match groups.push(group) {
        Ok(()) => Ok(()),
        Err(_) => Err(NoMemory),
    }
}

impl ByCell {
    /// With no rules. It takes no memory.
    pub(crate) fn new(alloc: Global) -> Self
        ensures { IsBlank result }
    {
        ByCell {
            alloc,
            names: Names::new(alloc),
            groups: Vec::new(alloc),
        }
    }

    /// Adds the place of a rule of a cell behind those that are there.
    fn add(&mut self, cell: &[u8], place: usize) -> Result<(), NoMemory>
        requires { IsPaired self.old }
        ensures paired { OnOk result (IsPaired self.new) }
        ensures added { OnOk result ((other : List ℕ) → places_in self.new other ≡ places_in self.old other ++ cond (bytes_eq cell.now other) (place ∷ []) []) }
    {
        match self.names.place(cell) {
            Some(at) => append_at(&mut self.groups, at, place)?,
            None => {
                self.names.number(cell)?;
                append_group(self.alloc, &mut self.groups, place)?;
            }
        }
        Ok(())
    }

    /// Adds the places of rules, where there is none yet.
    pub(crate) fn fill<R: OfCell>(&mut self, rules: &[R]) -> Result<(), NoMemory>
        requires { IsBlank self.old }
        ensures { OnOk result (IsIndex R.cell_of rules.now self.new) }
    {
        for (place, rule) in rules.iter().enumerate() {
            self.add(rule.cell_name(), place)?;
        }
        Ok(())
    }

    /// The places of the rules of a cell, in their order.
    pub fn places(&self, cell: &[u8]) -> &[usize]
        ensures { result.now ≡ places_in self.now cell.now }
    {
        match self.names.place(cell) {
            Some(at) => group_at(self.groups.as_slice(), at),
            None => &[],
        }
    }
}
