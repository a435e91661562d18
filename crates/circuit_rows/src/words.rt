//! The words of a line.

use crate::small::Scale;
use crate::stop::Stop;
use std::alloc::Global;

/// What is drawn of a circuit.
#[derive(Clone, Copy, Debug, PartialEq, Eq)]
pub enum Drawing {
    /// `plain COUNT`: nets that the devices drive.
    Plain,
    /// `input COUNT`: nets that are inputs.
    Input,
    /// `clock INVERTED`: a net that carries the clock, which is 1.
    Clock,
    /// `n LEFT GATE RIGHT LEVEL`.
    NDevice,
    /// `p LEFT GATE RIGHT LEVEL`.
    PDevice,
    /// `n_keeper LEFT GATE RIGHT`: an n-device of level 4 that is a keeper.
    NKeeper,
    /// `p_keeper LEFT GATE RIGHT`: such a p-device.
    PKeeper,
    /// `inverter FROM TO`.
    Inverter,
    /// `hold NET`: of size 2.
    Hold,
    /// `sized NET SIZE`: a hold.
    Sized,
    /// `scale 16`: fifteen levels, from here on.
    Scale,
    /// `inverters FIRST LAST FROM`: to each net from the next one, and to the last from another.
    Inverters,
    /// `row GATE FIRST LAST`: n-devices of level 6 from each net to the next one, up or down.
    Row,
}

/// What is asked of a circuit.
#[derive(Clone, Copy, Debug, PartialEq, Eq)]
pub enum Ask {
    /// `known NET ..`: what is known of these nets, or of all.
    Known,
    /// `least BARE NET ..`: the least nets of the parts of these nets, or of all, without or with keepers.
    Least,
    /// `parts BARE PLACE ..`: the parts without or with keepers, at these places or all, or a cycle.
    Parts,
    /// `order RANK ..`: the plain nets in their order, by ranks of all nets.
    Order,
    /// `signals NET HELD BIT ..`: strengths of all nets and what one shows, at the bits of the holds and of the nets.
    Signals,
    /// `classes BIT ..`: the classes of the parts, where the clock has these bits in the phases.
    Classes,
}

/// What is asked of the paths of a circuit, whose inputs and holds are variables in their order.
#[derive(Clone, Copy, Debug, PartialEq, Eq)]
pub enum Path {
    /// `solve BUDGET`: the part of all plain nets is solved in a store.
    Solve,
    /// `product NET ..`: these nets are 1, in a sum of products.
    Product,
    /// `complement NET`: this net is 0, in a sum of products.
    Complement,
    /// `level LEVEL NET`: whether a net has at least a level where the sum is 1, and only there.
    Level,
    /// `zeros NET`: whether 0 reaches a net where the sum is 1, and only there.
    Zeros,
    /// `ones NET`: whether 1 reaches a net where the sum is 1, and only there.
    Ones,
}

/// What is measured of the part of all plain nets.
#[derive(Clone, Copy, Debug, PartialEq, Eq)]
pub enum Measure {
    /// `nodes BUDGET`: its nets and devices, and the nodes of its store before and after it is solved.
    Nodes,
    /// `time BUDGET TIMES`: the same, with the least microseconds that solving took, of so many times in a new store each.
    Time,
}

/// The word of a line.
#[derive(Clone, Copy, Debug, PartialEq, Eq)]
pub enum Word {
    /// `circuit`: a new one is drawn.
    Circuit,
    /// A line that adds to the circuit.
    Drawing(Drawing),
    /// A line that asks for what is known, for parts, or for what nets show at one valuation.
    Ask(Ask),
    /// A line that asks for strengths and values at all valuations at once.
    Path(Path),
    /// A line that asks how many nodes a part takes, or how long.
    Measure(Measure),
    /// `small`, or `small_fifteen` with fifteen levels: all circuits of three plain nets with at most three devices.
    Small(Scale),
}

/// All words.
const WORDS: [(&str, Word); 30] = [
    ("circuit", Word::Circuit),
    ("plain", Word::Drawing(Drawing::Plain)),
    ("input", Word::Drawing(Drawing::Input)),
    ("clock", Word::Drawing(Drawing::Clock)),
    ("n", Word::Drawing(Drawing::NDevice)),
    ("p", Word::Drawing(Drawing::PDevice)),
    ("n_keeper", Word::Drawing(Drawing::NKeeper)),
    ("p_keeper", Word::Drawing(Drawing::PKeeper)),
    ("inverter", Word::Drawing(Drawing::Inverter)),
    ("hold", Word::Drawing(Drawing::Hold)),
    ("sized", Word::Drawing(Drawing::Sized)),
    ("scale", Word::Drawing(Drawing::Scale)),
    ("inverters", Word::Drawing(Drawing::Inverters)),
    ("row", Word::Drawing(Drawing::Row)),
    ("known", Word::Ask(Ask::Known)),
    ("least", Word::Ask(Ask::Least)),
    ("parts", Word::Ask(Ask::Parts)),
    ("order", Word::Ask(Ask::Order)),
    ("signals", Word::Ask(Ask::Signals)),
    ("classes", Word::Ask(Ask::Classes)),
    ("solve", Word::Path(Path::Solve)),
    ("product", Word::Path(Path::Product)),
    ("complement", Word::Path(Path::Complement)),
    ("level", Word::Path(Path::Level)),
    ("zeros", Word::Path(Path::Zeros)),
    ("ones", Word::Path(Path::Ones)),
    ("nodes", Word::Measure(Measure::Nodes)),
    ("time", Word::Measure(Measure::Time)),
    ("small", Word::Small(Scale::Eight)),
    ("small_fifteen", Word::Small(Scale::Fifteen)),
];

/// The word of a name.
pub(crate) fn word_of(name: &str) -> Result<Word, Stop> {
    for (known, word) in WORDS {
        if known == name {
            return Ok(word);
        }
    }
    Err(Stop::NotRead)
}

/// The numbers of a text.
pub(crate) fn numbers_of(alloc: Global, text: &str) -> Result<Vec<u32>, Stop> {
    let mut numbers = Vec::new(alloc);
    for word in text.split_whitespace() {
        let Ok(number) = word.parse::<u32>() else {
            return Err(Stop::NotRead);
        };
        numbers.push(number)?;
    }
    Ok(numbers)
}

/// The number at a place of a line.
pub(crate) fn number(numbers: &[u32], at: usize) -> Result<u32, Stop> {
    match numbers.get(at) {
        Some(number) => Ok(*number),
        None => Err(Stop::NotRead),
    }
}

/// The bit at a place of a line.
pub(crate) fn bit(numbers: &[u32], at: usize) -> Result<bool, Stop> {
    Ok(number(numbers, at)? != 0)
}

/// The numbers from a place on.
pub(crate) fn behind(numbers: &[u32], at: usize) -> &[u32] {
    numbers.get(at..).unwrap_or(&[])
}
