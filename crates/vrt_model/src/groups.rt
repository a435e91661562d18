//! Holds that have one bit in common, and the variables of a cell.

use crate::{Net, Seq, Text};

/// A hold, and whether it has the inverse of the bit of its group.
#[derive(Clone, Copy, Debug, PartialEq, Eq)]
pub struct Member {
    /// The place of the hold in `Circuit.holds`, from 0.
    pub hold: u32,
    /// Whether the hold has the inverse of the group's bit.
    pub inverted: bool,
}

/// The holds of one bit. Where the group reaches a latch, `element` is the number of the latch element.
pub struct Group {
    /// The holds that share the bit, in the order of their nets.
    pub members: Seq<Member>,
    /// The number of the element of the checked cell's model, from 0; none where the group reaches no latch of it.
    pub element: Option<u32>,
}

/// By hand, so that letting go of one is a call.
impl Drop for Group {
    fn drop(self) {
        let Group {
            members: _members,
            element: _element,
        } = self;
    }
}

/// What a variable stands for.
#[derive(Clone, Copy, Debug, PartialEq, Eq)]
pub enum Source {
    /// An input of the cell, by its net.
    Input(Net),
    /// The bit that a latch element of the model has as the phase begins, by its number, from 0.
    Element(u32),
    /// The charge of a group that no latch and no `enter` line gives a bit, by its place among the groups, from 0.
    Group(u32),
}

/// The variables of a cell in a phase.
pub struct Vars {
    /// The name of each variable: of the input, the latch element, or the group's least net.
    pub names: Seq<Text>,
    /// What each variable stands for: inputs in net order, then latch elements, then groups.
    pub sources: Seq<Source>,
}

/// By hand, so that letting go of one is a call.
impl Drop for Vars {
    fn drop(self) {
        let Vars {
            names: _names,
            sources: _sources,
        } = self;
    }
}

/// A bit for each variable.
pub struct Valuation {
    /// The bits, in the order of the variables. Of two valuations the lesser has 0 where they first differ.
    pub bits: Seq<bool>,
}

/// By hand, so that letting go of one is a call.
impl Drop for Valuation {
    fn drop(self) {
        let Valuation { bits: _bits } = self;
    }
}
