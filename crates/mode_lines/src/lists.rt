//! A list of names with bits, as `a=1,b=0`.

ghost use Rattle.std.specs.Prelude.{◌≡◌, ◌<◌, ◌∷◌, [], Some, cond, length, IfNone, IfSome};
ghost use Rattle.mode_lines.specs.Lists.{AddsPieces, ItemGives, ListGives, NamedGives, bit_named, cut, last_place};

use std::alloc::Global;
use text_lines::first_place;
use vrt_model::{NoMemory, Seq, Text};

/// A name and the bit that is given to it.
pub struct AtItem {
    /// The name, as written.
    pub name: Text,
    /// The bit.
    pub bit: bool,
}

/// By hand, so that letting go of one is a call.
impl Drop for AtItem {
    fn drop(self) {
        let AtItem {
            name: _name,
            bit: _bit,
        } = self;
    }
}

/// Why a list has no items.
#[derive(Clone, Copy)]
pub enum ListFault {
    /// It has another form: `list does not fit`.
    Form,
    /// Memory could not be had.
    NoMemory,
}

/// The bit that a word is: `0` or `1`.
fn bit_named(word: &[u8]) -> Option<bool>
    ensures { result ≡ bit_named word.now }
{
    if word == b"0".as_slice() {
        return Some(false);
    }
    if word == b"1".as_slice() {
        return Some(true);
    }
    None
}

/// A place, where a byte is the one that is looked for, else the place that was found before.
fn later(is: bool, at: usize, found: Option<usize>) -> Option<usize>
    ensures { result ≡ cond is (Some at) found }
{
    if is { Some(at) } else { found }
}

/// The last place at which a byte stands.
fn last_place(byte: u8, bytes: &[u8]) -> Option<usize>
    ensures place { result ≡ last_place byte bytes.now }
    ensures low { IfSome result (λ at. at < length bytes.now) }
{
    let mut found = None;
    for at in 0..bytes.len() {
        found = later(bytes[at] == byte, at, found);
    }
    found
}

/// An item of this name and bit, if the name has a byte.
fn named(alloc: Global, name: &[u8], bit: Option<bool>) -> Result<AtItem, ListFault>
    ensures { NamedGives name.now bit result }
{
    let Some(bit) = bit else {
        return Err(ListFault::Form);
    };
    if name.is_empty() {
        return Err(ListFault::Form);
    }
    match Text::from_bytes(alloc, name) {
        Ok(name) => Ok(AtItem { name, bit }),
        Err(_) => Err(ListFault::NoMemory),
    }
}

/// The item that a piece is, cut at its last `=`.
fn read_item(alloc: Global, piece: &[u8]) -> Result<AtItem, ListFault>
    ensures { ItemGives piece.now result }
{
    match last_place(b'=', piece) {
        Some(at) => named(alloc, &piece[..at], bit_named(&piece[at + 1..])),
        None => Err(ListFault::Form),
    }
}

/// The first piece and what is behind its comma, none where there is no comma.
pub(crate) fn cut_piece(list: &[u8]) -> Option<(&[u8], &[u8])>
    ensures cut { IfSome result (λ p. (length p.1.now < length list.now) × (cut list.now ≡ p.0.now ∷ cut p.1.now)) }
    ensures last { IfNone result (cut list.now ≡ list.now ∷ []) }
{
    match first_place(b',', list) {
        Some(count) => Some((&list[..count], &list[count + 1..])),
        None => None,
    }
}

/// Adds the item of a piece.
fn add_piece(alloc: Global, items: &mut Seq<AtItem>, piece: &[u8]) -> Result<(), ListFault>
    ensures { AddsPieces items.old items.new (piece.now ∷ []) result }
{
    match read_item(alloc, piece) {
        Ok(item) => match items.append(item) {
            Ok(()) => Ok(()),
            Err(_) => Err(ListFault::NoMemory),
        },
        Err(fault) => Err(fault),
    }
}

/// Adds the items of the pieces between commas.
fn add_pieces(alloc: Global, items: &mut Seq<AtItem>, list: &[u8]) -> Result<(), ListFault>
    ensures { AddsPieces items.old items.new (cut list.now) result }
{
    let mut rest = list;
    'cuts: while let Some((piece, behind)) = cut_piece(rest) {
        match add_piece(alloc, items, piece) {
            Ok(()) => rest = behind,
            Err(fault) => return Err(fault),
        }
    }
    add_piece(alloc, items, rest)
}

/// The items of a list: names with bits, as `a=1,b=0`. Items stand between commas, and each is cut at its last `=`. Where one has no
/// `=`, an empty name, or a value that is neither `0` nor `1`, the list has another form. An empty list has no items.
pub fn read_list(alloc: Global, list: &[u8]) -> Result<Seq<AtItem>, ListFault>
    ensures { ListGives list.now result }
{
    let mut items = Seq::new(alloc);
    if list.is_empty() {
        return Ok(items);
    }
    match add_pieces(alloc, &mut items, list) {
        Ok(()) => Ok(items),
        Err(fault) => Err(fault),
    }
}
