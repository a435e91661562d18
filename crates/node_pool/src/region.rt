//! What a pool keeps and hands out.

/// Memory could not be had.
#[derive(Clone, Copy)]
pub struct NoMemory;

/// A node of a decision diagram: the variable that it tests, and the numbers of its branches where that variable is 0
/// and where it is 1. To a pool these are three numbers.
#[derive(Clone, Copy, PartialEq, Eq)]
pub struct Node {
    /// The number of the variable that the node tests.
    pub var: u32,
    /// The number of the node where the variable is 0.
    pub lo: u32,
    /// The number of the node where the variable is 1.
    pub hi: u32,
}

/// Words that were taken together, by the place of the first of them and by their count. It is live as long as all of
/// its words are there.
#[derive(Clone, Copy)]
pub struct Span {
    /// The place of the first word among the words of the pool, from 0.
    pub start: u32,
    /// How many words there are.
    pub len: u32,
}

/// How many nodes and words there were at one time.
#[derive(Clone, Copy)]
pub struct Mark {
    /// The count of nodes then: each node with a number below it was there.
    pub nodes: u32,
    /// The count of words then: each word at a place below it was there.
    pub words: u32,
}
