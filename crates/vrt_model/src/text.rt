//! A list of bytes.

ghost use Rattle.std.specs.Prelude.{◌≡◌, ◌==◌, List, ℕ, [], ◌∷◌, ◌++◌, ◌+◌, ◌≤◌, length, map, take, if◌then◌else◌, MatchResult, IfOk};
ghost use Rattle.std.specs.Char.{to_ascii_lowercase};
ghost use Rattle.vrt_model.specs.Texts.{bytes_of};

use crate::NoMemory;
use std::alloc::Global;
use std::fmt;
use std::marker::Model;

/// A few bytes, kept in an array.
#[derive(Clone, Copy)]
struct Few {
    /// How many bytes of the array count.
    count: u8,
    /// The bytes, and any behind them.
    room: [u8; 14],
}

/// Bytes: a few, or as many as there are in a list of their own.
#[derive(Drop)]
enum Bytes {
    /// A few bytes.
    Short(Few),
    /// As many as there are.
    Long(Box<Vec<u8>>),
}

/// A name or a line, as the bytes of a file. Nothing says that they are UTF-8. Up to 14 take no memory of their own.
pub struct Text {
    alloc: Global,
    bytes: Bytes,
}

/// By hand, so that letting go of one is a call.
impl Drop for Text {
    fn drop(self) {
        let Text {
            alloc: _alloc,
            bytes: _bytes,
        } = self;
    }
}

const _: () = prove!(size_of::<Text>() == 16);

impl Model for Text {
    ghost use Rattle.std.specs.Prelude.{ℕ, List};
    ghost use Rattle.vrt_model.specs.Texts.{bytes_of};

    ghost Value = { List ℕ };

    ghost view = { λ t. bytes_of t.bytes };
}

/// Two short lists of bytes behind each other, with zeros behind them.
fn filled(first: &[u8], second: &[u8]) -> [u8; 14]
    requires { length first.now + length second.now ≤ 14 }
    ensures { take (length first.now + length second.now) result ≡ first.now ++ second.now }
{
    let mut room = [0; 14];
    for at in 0..first.len() {
        room[at] = first[at];
    }
    for place in 0..second.len() {
        room[first.len() + place] = second[place];
    }
    room
}

/// Two lists of bytes behind each other, in a list of their own.
fn long(alloc: Global, first: &[u8], second: &[u8]) -> Result<Bytes, NoMemory>
    ensures { IfOk result (λ made. bytes_of made ≡ first.now ++ second.now) }
{
    let Ok(mut bytes) = Vec::with_capacity(alloc, first.len() + second.len()) else {
        return Err(NoMemory);
    };
    if bytes.extend_from_slice(first).is_err() || bytes.extend_from_slice(second).is_err() {
        return Err(NoMemory);
    }
    match Box::new(alloc, bytes) {
        Ok(bytes) => Ok(Bytes::Long(bytes)),
        Err(_) => Err(NoMemory),
    }
}

/// Two lists of bytes behind each other.
fn joined(alloc: Global, first: &[u8], second: &[u8]) -> Result<Bytes, NoMemory>
    ensures { IfOk result (λ made. bytes_of made ≡ first.now ++ second.now) }
{
    if first.len() + second.len() <= 14 {
        let count = (first.len() + second.len()) as u8;
        return Ok(Bytes::Short(Few {
            count,
            room: filled(first, second),
        }));
    }
    long(alloc, first, second)
}

impl Few {
    #[inline]
    fn as_slice(&self) -> &[u8]
        ensures { result.now ≡ take self.now.count self.now.room }
    {
        let bytes = self.room.as_slice();
        let count = self.count as usize;
        if count < bytes.len() {
            &bytes[..count]
        } else {
            bytes
        }
    }

    /// Adds a byte where there is room for it.
    #[inline]
    fn push(&mut self, item: u8) -> bool
        ensures { take self.new.count self.new.room ≡ (if result then take self.old.count self.old.room ++ item ∷ [] else take self.old.count self.old.room) }
    {
        if self.count >= 14 {
            return false;
        }
        self.room[self.count as usize] = item;
        self.count += 1;
        true
    }

    /// Puts each letter in lower case, those behind the bytes that count too.
    fn make_ascii_lowercase(&mut self)
        ensures { take self.new.count self.new.room ≡ map to_ascii_lowercase (take self.old.count self.old.room) }
    {
        self.room.as_mut_slice().make_ascii_lowercase();
    }
}

impl Bytes {
    #[inline]
    fn as_slice(&self) -> &[u8]
        ensures { result.now ≡ bytes_of self.now }
    {
        match self {
            Bytes::Short(few) => few.as_slice(),
            Bytes::Long(bytes) => bytes.as_slice(),
        }
    }

    /// Adds a byte. False where a short list has no room.
    #[inline]
    fn push(&mut self, item: u8) -> Result<bool, NoMemory>
        ensures { MatchResult result (λ fits. bytes_of self.new ≡ (if fits then bytes_of self.old ++ item ∷ [] else bytes_of self.old)) (λ _. bytes_of self.new ≡ bytes_of self.old) }
    {
        match self {
            Bytes::Short(few) => Ok(few.push(item)),
            Bytes::Long(bytes) => match bytes.push(item) {
                Ok(()) => Ok(true),
                Err(_) => Err(NoMemory),
            },
        }
    }

    /// Adds bytes to a long list. False for a short one, which is as it was.
    fn extend(&mut self, more: &[u8]) -> Result<bool, NoMemory>
        ensures { MatchResult result (λ fits. bytes_of self.new ≡ (if fits then bytes_of self.old ++ more.now else bytes_of self.old)) (λ _. bytes_of self.new ≡ bytes_of self.old) }
    {
        match self {
            Bytes::Short(_) => Ok(false),
            Bytes::Long(bytes) => match bytes.extend_from_slice(more) {
                Ok(()) => Ok(true),
                Err(_) => Err(NoMemory),
            },
        }
    }

    /// Puts each letter in lower case.
    fn make_ascii_lowercase(&mut self)
        ensures { bytes_of self.new ≡ map to_ascii_lowercase (bytes_of self.old) }
    {
        match self {
            Bytes::Short(few) => few.make_ascii_lowercase(),
            Bytes::Long(bytes) => bytes.as_mut_slice().make_ascii_lowercase(),
        }
    }
}

impl Text {
    /// With no byte. It takes no memory.
    pub fn new(alloc: Global) -> Self
        ensures { result ≡ [] }
    {
        Text {
            alloc,
            bytes: Bytes::Short(Few {
                count: 0,
                room: [0; 14],
            }),
        }
    }

    /// A copy of these bytes.
    pub fn from_bytes(alloc: Global, bytes: &[u8]) -> Result<Self, NoMemory>
        ensures { IfOk result (λ t. t ≡ bytes.now) }
    {
        let bytes = joined(alloc, bytes, &[])?;
        Ok(Text { alloc, bytes })
    }

    /// How many bytes there are.
    pub fn len(&self) -> usize
        ensures { result ≡ length self.now }
    {
        self.as_bytes().len()
    }

    /// Whether there is no byte.
    pub fn is_empty(&self) -> bool
        ensures { result ≡ (length self.now == 0) }
    {
        self.as_bytes().is_empty()
    }

    /// Adds bytes that have no room in a short list. Where memory is wanting, the text is as it was.
    #[cold]
    #[inline(never)]
    fn grow(&mut self, more: &[u8]) -> Result<(), NoMemory>
        ensures { MatchResult result (λ _. self.new ≡ self.old ++ more.now) (λ _. self.new ≡ self.old) }
    {
        let made = joined(self.alloc, self.bytes.as_slice(), more)?;
        self.bytes = made;
        Ok(())
    }

    /// Adds a byte at the end. Where memory is wanting, the byte comes back and the text is as it was.
    #[inline]
    pub fn push(&mut self, item: u8) -> Result<(), (u8, NoMemory)>
        ensures { MatchResult result (λ _. self.new ≡ self.old ++ item ∷ []) (λ e. (self.new ≡ self.old) × (e.0 ≡ item)) }
    {
        match self.bytes.push(item) {
            Ok(true) => Ok(()),
            Ok(false) => match self.grow(&[item]) {
                Ok(()) => Ok(()),
                Err(_) => Err((item, NoMemory)),
            },
            Err(_) => Err((item, NoMemory)),
        }
    }

    /// Adds bytes at the end. Where memory is wanting, the text is as it was.
    pub fn extend(&mut self, bytes: &[u8]) -> Result<(), NoMemory>
        ensures { MatchResult result (λ _. self.new ≡ self.old ++ bytes.now) (λ _. self.new ≡ self.old) }
    {
        match self.bytes.extend(bytes) {
            Ok(true) => Ok(()),
            Ok(false) => self.grow(bytes),
            Err(_) => Err(NoMemory),
        }
    }

    /// Puts each letter from `A` to `Z` in lower case, where it stands.
    pub fn make_ascii_lowercase(&mut self)
        ensures { self.new ≡ map to_ascii_lowercase self.old }
    {
        self.bytes.make_ascii_lowercase();
    }

    /// The bytes, to go over.
    #[inline]
    pub fn as_bytes(&self) -> &[u8]
        ensures { result.now ≡ self.now }
    {
        self.bytes.as_slice()
    }
}

/// As a struct with a list of its bytes.
impl fmt::Debug for Text {
    fn fmt<W: fmt::Write>(&self, f: &mut fmt::Formatter<W>) -> fmt::Result {
        f.debug_struct("Text")
            .field("bytes", &self.as_bytes())
            .finish()
    }
}
