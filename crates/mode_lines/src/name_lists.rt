//! A list of names, as `a,b`.

ghost use Rattle.std.specs.Prelude.{◌<◌, ◌∷◌, [], length, IfOk};
ghost use Rattle.mode_lines.specs.Lists.{cut};
ghost use Rattle.mode_lines.specs.NameLists.{AddsNames, NamesGive};

use crate::lists::{ListFault, cut_piece};
use rule_index::lowered_name;
use std::alloc::Global;
use vrt_model::{Seq, Text};

/// Adds the name that a piece is, lowered.
fn add_name(alloc: Global, names: &mut Seq<Text>, piece: &[u8]) -> Result<(), ListFault>
    ensures { AddsNames names.old names.new (piece.now ∷ []) result }
{
    if piece.is_empty() {
        return Err(ListFault::Form);
    }
    let Ok(name) = lowered_name(alloc, piece) else {
        return Err(ListFault::NoMemory);
    };
    match names.append(name) {
        Ok(()) => Ok(()),
        Err(_) => Err(ListFault::NoMemory),
    }
}

/// Adds the names between commas.
fn add_names(alloc: Global, names: &mut Seq<Text>, list: &[u8]) -> Result<(), ListFault>
    ensures { AddsNames names.old names.new (cut list.now) result }
{
    let mut rest = list;
    'cuts: while let Some((piece, behind)) = cut_piece(rest) {
        match add_name(alloc, names, piece) {
            Ok(()) => rest = behind,
            Err(fault) => return Err(fault),
        }
    }
    add_name(alloc, names, rest)
}

/// The names of a list, as `a,b`, lowered in ASCII. They stand between commas; where one is empty, the list has another form, and so has
/// an empty list.
pub fn read_names(alloc: Global, list: &[u8]) -> Result<Seq<Text>, ListFault>
    ensures gives { NamesGive list.now result }
    ensures some { IfOk result (λ names. 0 < length names) }
{
    let mut names = Seq::new(alloc);
    match add_names(alloc, &mut names, list) {
        Ok(()) => Ok(names),
        Err(fault) => Err(fault),
    }
}
