//! Words of a line: names, digits, bits and signs.

ghost use Rattle.std.specs.Prelude.{◌≡◌, ◌+◌, ◌<◌, ◌==◌, ◌∷◌, [], Some, option_map, IfOk};
ghost use Rattle.text_lines.specs.Bytes.{lowered};
ghost use Rattle.rules_lines.specs.Words.{bit_of, cut_first, digit_in, fine_level, kind_of, level_of, scale_of, signed, size_of, usual_level, usual_size};

use crate::entry::{ByScale, Signed};
use std::alloc::Global;
use text_lines::first_place;
use vrt_model::{FINE_SCALE, Kind, NoMemory, Text, USUAL_SCALE, usual_at};

/// A name, lowered.
pub fn lower(alloc: Global, word: &[u8]) -> Result<Text, NoMemory>
    ensures { IfOk result (λ text. text ≡ lowered word.now) }
{
    let mut text = Text::new(alloc);
    for b in word {
        if text.push(b.to_ascii_lowercase()).is_err() {
            return Err(NoMemory);
        }
    }
    Ok(text)
}

/// Two names, lowered.
pub fn lower_two(alloc: Global, first: &Text, second: &Text) -> Result<(Text, Text), NoMemory>
    ensures { IfOk result (λ two. (two.0 ≡ lowered first.now) × (two.1 ≡ lowered second.now)) }
{
    let first = lower(alloc, first.as_bytes())?;
    let second = lower(alloc, second.as_bytes())?;
    Ok((first, second))
}

/// A digit of a range, none for any other word.
fn digit(least: u8, greatest: u8, word: &[u8]) -> Option<u8>
    requires least { 48 + least < 256 }
    requires greatest { 48 + greatest < 256 }
    ensures { result ≡ digit_in least greatest word.now }
{
    match word {
        [b] => {
            if b'0' + least <= *b && *b <= b'0' + greatest {
                Some(*b - b'0')
            } else {
                None
            }
        }
        _ => None,
    }
}

/// Ten and a digit from 0 to 4.
fn ten_and(last: u8) -> Option<u8>
    ensures { result ≡ option_map (λ n. 10 + n) (digit_in 0 4 (last ∷ [])) }
{
    if b'0' <= last && last <= b'4' {
        Some(10 + (last - b'0'))
    } else {
        None
    }
}

/// A level of scale 16.
fn fine_level(word: &[u8]) -> Option<u8>
    ensures { result ≡ fine_level word.now }
{
    match word {
        [first, last] => { if *first == b'1' { ten_and(*last) } else { None } }
        _ => digit(6, 9, word),
    }
}

/// LEVEL, at each scale.
pub fn level(word: &[u8]) -> ByScale
    ensures { result ≡ level_of word.now }
{
    ByScale {
        eight: digit(4, 7, word),
        sixteen: fine_level(word),
    }
}

/// The level of a `device` line without LEVEL.
pub fn usual_level() -> ByScale
    ensures { result ≡ usual_level }
{
    ByScale {
        eight: Some(usual_at(USUAL_SCALE)),
        sixteen: Some(usual_at(FINE_SCALE)),
    }
}

/// SIZE, at each scale.
pub fn size(word: &[u8]) -> ByScale
    ensures { result ≡ size_of word.now }
{
    ByScale {
        eight: digit(1, 3, word),
        sixteen: digit(1, 5, word),
    }
}

/// The size of a `hold` line without SIZE.
pub fn usual_size() -> ByScale
    ensures { result ≡ usual_size }
{
    ByScale {
        eight: Some(1),
        sixteen: Some(1),
    }
}

/// `8` or `16`.
pub fn scale(word: &[u8]) -> Option<u8>
    ensures { result ≡ scale_of word.now }
{
    if word == b"8".as_slice() {
        return Some(USUAL_SCALE);
    }
    if word == b"16".as_slice() {
        return Some(FINE_SCALE);
    }
    None
}

/// `0` or `1`.
pub fn bit(word: &[u8]) -> Option<bool>
    ensures { result ≡ bit_of word.now }
{
    if word == b"0".as_slice() {
        return Some(false);
    }
    if word == b"1".as_slice() {
        return Some(true);
    }
    None
}

/// `n` or `p`.
pub fn kind(word: &[u8]) -> Option<Kind>
    ensures { result ≡ kind_of word.now }
{
    if word == b"n".as_slice() {
        return Some(Kind::N);
    }
    if word == b"p".as_slice() {
        return Some(Kind::P);
    }
    None
}

/// What stands before and behind the first such byte.
pub fn cut(alloc: Global, sign: u8, word: &[u8]) -> Result<Option<(Text, Text)>, NoMemory>
    ensures { IfOk result (λ cut. cut ≡ cut_first sign word.now) }
{
    match first_place(sign, word) {
        Some(count) => {
            let before = Text::from_bytes(alloc, &word[..count])?;
            let behind = Text::from_bytes(alloc, &word[count + 1..])?;
            Ok(Some((before, behind)))
        }
        None => Ok(None),
    }
}

/// A name with or without `!`.
pub fn sign_off(alloc: Global, word: &[u8]) -> Result<Signed, NoMemory>
    ensures { IfOk result (λ s. s ≡ signed word.now) }
{
    match word {
        [b'!', rest @ ..] => Ok(Signed {
            name: Text::from_bytes(alloc, rest)?,
            is_inverted: true,
        }),
        _ => Ok(Signed {
            name: Text::from_bytes(alloc, word)?,
            is_inverted: false,
        }),
    }
}
