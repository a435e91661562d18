//! Names as the keys of a set.

ghost use Rattle.std.specs.Prelude.{◌≡◌, [], ◌∷◌, IfOk};
ghost use Rattle.std.specs.Cmp.{on_equiv, on_per, partial_equiv_from_equiv};
ghost use Rattle.std.specs.Cmp.Lexicographic.{bytes_decides, nat_list_eq_equiv};
ghost use Rattle.std.specs.Str.{bytes_eq};
ghost use Rattle.std.proofs.Common.{ap};

use indexmap::Equivalent;
use std::alloc::Global;
use std::hash::{Hash, Hasher};
use std::marker::Model;
use vrt_model::{NoMemory, Text};

/// A name that a set holds, as a text.
pub(crate) struct Key {
    text: Text,
}

const _: () = prove!(size_of::<Key>() == 16);

/// By hand, so that letting go of one is a call.
impl Drop for Key {
    fn drop(self) {
        let Key { text: _text } = self;
    }
}

impl Model for Key {
    ghost use Rattle.std.specs.Prelude.{ℕ, List};

    ghost Value = { List ℕ };

    ghost view = { λ k. k.text };
}

impl Key {
    /// A copy of these bytes.
    pub(crate) fn new(alloc: Global, name: &[u8]) -> Result<Self, NoMemory>
        ensures { IfOk result (λ key. key ≡ name.now) }
    {
        let text = Text::from_bytes(alloc, name)?;
        Ok(Key { text })
    }

    /// The bytes of the name.
    #[inline]
    pub(crate) fn as_bytes(&self) -> &[u8]
        ensures { result.now ≡ self.now }
    {
        self.text.as_bytes()
    }
}

/// Keys are equal where their bytes are.
impl PartialEq for Key {
    ghost eq = { bytes_eq };

    ghost laws = { partial_equiv_from_equiv nat_list_eq_equiv };

    fn eq(&self, other: &Key) -> bool {
        self.as_bytes() == other.as_bytes()
    }
}

impl Eq for Key {
    ghost laws = { nat_list_eq_equiv };
}

/// All bytes are fed at once.
impl Hash for Key {
    ghost hash_input = { λ name. name ∷ [] };

    ghost respects_eq = { λ x y same. ap (λ name. name ∷ []) ((bytes_decides x y).0 same) };

    fn hash<H: Hasher>(&self, state: &mut H) {
        state.write(self.as_bytes());
    }
}

/// A name that is looked for in a set. It is hashed and compared as a key with these bytes.
#[derive(Clone, Copy)]
pub(crate) struct Sought<'a> {
    /// The bytes of the name.
    pub(crate) name: &'a [u8],
}

impl<'a> PartialEq for Sought<'a> {
    ghost eq = { λ x y. bytes_eq x.name.now y.name.now };

    ghost laws = { on_per (λ q. q.name.now) (partial_equiv_from_equiv nat_list_eq_equiv) };

    fn eq(&self, other: &Sought<'a>) -> bool {
        self.name == other.name
    }
}

impl<'a> Eq for Sought<'a> {
    ghost laws = { on_equiv (λ q. q.name.now) nat_list_eq_equiv };
}

impl<'a> Hash for Sought<'a> {
    ghost hash_input = { λ q. q.name.now ∷ [] };

    ghost respects_eq = { λ x y same. ap (λ name. name ∷ []) ((bytes_decides x.name.now y.name.now).0 same) };

    fn hash<H: Hasher>(&self, state: &mut H) {
        state.write(self.name);
    }
}

impl<'a> Equivalent<Key> for Sought<'a> {
    ghost equivalent = { λ q key. bytes_eq q.name.now key };

    ghost respects_hash = { λ q key same. ap (λ name. name ∷ []) ((bytes_decides q.name.now key).0 same) };

    ghost respects_eq = { λ q x y. nat_list_eq_equiv.congr q.name.now x y };

    fn equivalent(&self, key: &Key) -> bool {
        self.name == key.as_bytes()
    }
}
