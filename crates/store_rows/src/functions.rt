//! Known functions, as benchmarks make them.

ghost use Rattle.std.specs.Prelude.{◌≡◌, ◌<◌, ◌≤◌, length};

use crate::gates::{and, not, or, xor};
use crate::spans::bit;
use crate::stop::Stop;
use bdd_core::{H, ONE, Store, ZERO};

/// A known function.
#[derive(Clone, Copy, Debug, PartialEq, Eq)]
pub enum Known {
    /// The sum of 17 products of two variables, with the first operands of all products before the second ones.
    AndOrBad,
    /// The same sum, with the operands of each product side by side.
    AndOrGood,
    /// Eight queens on a board of 8 by 8, none attacking another.
    Queens,
    /// The output of weight 2 ^ 9 of a multiplier of 10 by 10 bits.
    Multiplier,
    /// The carry of an adder of 32 bits, whose sums are made too.
    Adder,
    /// The complement of the sum of 200 variables.
    Nor,
    /// The parity of 1,000 variables, made from the first to the last.
    Parity,
    /// The product of 400 variables, made in rounds as a row of devices passes a signal on.
    Row400,
    /// The same of 1,000 variables.
    Row1000,
}

/// All functions.
pub const ALL: [Known; 9] = [
    Known::AndOrBad,
    Known::AndOrGood,
    Known::Queens,
    Known::Multiplier,
    Known::Adder,
    Known::Nor,
    Known::Parity,
    Known::Row400,
    Known::Row1000,
];

/// The name of a function.
pub(crate) fn name(known: Known) -> &'static str {
    match known {
        Known::AndOrBad => "andor-bad",
        Known::AndOrGood => "andor-good",
        Known::Queens => "queens",
        Known::Multiplier => "multiplier",
        Known::Adder => "adder",
        Known::Nor => "nor",
        Known::Parity => "parity",
        Known::Row400 => "row-400",
        Known::Row1000 => "row-1000",
    }
}

/// Makes a function.
pub(crate) fn make(store: &mut Store, known: Known) -> Result<H, Stop> {
    match known {
        Known::AndOrBad => and_or(store, 1, 17),
        Known::AndOrGood => and_or(store, 2, 1),
        Known::Queens => queens(store),
        Known::Multiplier => multiplier(store),
        Known::Adder => adder(store),
        Known::Nor => nor(store),
        Known::Parity => parity(store),
        Known::Row400 => row(store, 400),
        Known::Row1000 => row(store, 1000),
    }
}

/// The sum of 17 products. The first operands are `step` apart, and the second operand of each is `apart` after its
/// first.
fn and_or(store: &mut Store, step: u32, apart: u32) -> Result<H, Stop>
    requires { (step < 3) × (apart < 18) }
{
    let mut sum = ZERO;
    for i in 0..17u32 {
        let x = bit(store, i * step)?;
        let y = bit(store, i * step + apart)?;
        let product = and(store, x, y)?;
        sum = or(store, sum, product)?;
    }
    Ok(sum)
}

/// Not both of two squares of the board, which are counted row by row, and what was asked before.
fn not_both(store: &mut Store, before: H, one: u32, other: u32) -> Result<H, Stop> {
    let x = bit(store, one)?;
    let y = bit(store, other)?;
    let not_x = not(store, x)?;
    let not_y = not(store, y)?;
    let free = or(store, not_x, not_y)?;
    and(store, before, free)
}

/// Whether the queens of two squares attack each other.
fn attacks(one: u32, other: u32) -> bool
    requires { (one < 64) × (other < 64) }
{
    let rows = (one / 8).abs_diff(other / 8);
    let columns = (one % 8).abs_diff(other % 8);
    one != other && (rows == 0 || columns == 0 || rows == columns)
}

/// A queen in each row, and no two that attack each other.
fn queens(store: &mut Store) -> Result<H, Stop> {
    let mut all = ONE;
    for row in 0..8u32 {
        let mut some = ZERO;
        for column in 0..8u32 {
            let x = bit(store, row * 8 + column)?;
            some = or(store, some, x)?;
        }
        all = and(store, all, some)?;
    }
    for one in 0..64u32 {
        let mut alone = ONE;
        for other in 0..64u32 {
            if attacks(one, other) {
                alone = not_both(store, alone, one, other)?;
            }
        }
        all = and(store, all, alone)?;
    }
    Ok(all)
}

/// A full adder: the sum and the carry of three bits.
fn add(store: &mut Store, x: H, y: H, carry: H) -> Result<(H, H), Stop> {
    let half = xor(store, x, y)?;
    let sum = xor(store, half, carry)?;
    let both = and(store, x, y)?;
    let passed = and(store, half, carry)?;
    let carry = or(store, both, passed)?;
    Ok((sum, carry))
}

/// One row of a multiplier, added to the sums of its weights: the products of the bit `i` of one factor.
fn add_row(store: &mut Store, sums: &mut [H], i: u32) -> Result<H, Stop>
    requires { (length sums.old ≤ 10) × (i < 10) }
{
    let mut carry = ZERO;
    for j in 0..sums.len() {
        let x = bit(store, 2 * i)?;
        let y = bit(store, 2 * j as u32 + 1)?;
        let product = and(store, x, y)?;
        let (sum, next) = add(store, sums[j], product, carry)?;
        sums[j] = sum;
        carry = next;
    }
    Ok(carry)
}

/// The middle output of a multiplier of 10 by 10 bits, row by row, with the bits of the two factors side by side.
fn multiplier(store: &mut Store) -> Result<H, Stop> {
    let mut sums = [ZERO; 20];
    for i in 0..10usize {
        let carry = add_row(store, &mut sums[i..i + 10], i as u32)?;
        sums[i + 10] = carry;
    }
    Ok(sums[9])
}

/// The carry of an adder of 32 bits, with the bits of the two numbers side by side.
fn adder(store: &mut Store) -> Result<H, Stop> {
    let mut carry = ZERO;
    for i in 0..32u32 {
        let x = bit(store, 2 * i)?;
        let y = bit(store, 2 * i + 1)?;
        let (_sum, next) = add(store, x, y, carry)?;
        carry = next;
    }
    Ok(carry)
}

/// The complement of the sum of 200 variables.
fn nor(store: &mut Store) -> Result<H, Stop> {
    let mut sum = ZERO;
    for i in 0..200u32 {
        let x = bit(store, i)?;
        sum = or(store, sum, x)?;
    }
    not(store, sum)
}

/// The parity of 1,000 variables.
fn parity(store: &mut Store) -> Result<H, Stop> {
    let mut odd = ZERO;
    for i in 0..1000u32 {
        let x = bit(store, i)?;
        odd = xor(store, odd, x)?;
    }
    Ok(odd)
}

/// Passes a signal on over each device of a row by one net, the last device first. The first word is that of the source.
fn round(store: &mut Store, words: &mut [H]) -> Result<(), Stop>
    requires { length words.old ≤ 1001 }
    ensures { length words.new ≡ length words.old }
{
    for at in (1..words.len()).rev() {
        let gate = bit(store, at as u32 - 1)?;
        let passed = and(store, gate, words[at - 1])?;
        words[at] = or(store, words[at], passed)?;
    }
    Ok(())
}

/// What is at the far end of a row of so many devices, each with its own gate, after as many rounds: the product of the
/// gates. Each round asks again for the products that the rounds before it made.
fn row(store: &mut Store, devices: usize) -> Result<H, Stop>
    requires { devices ≤ 1000 }
{
    let mut words = [ZERO; 1001];
    words[0] = ONE;
    for _ in 0..devices {
        round(store, &mut words[..devices + 1])?;
    }
    Ok(words[devices])
}
