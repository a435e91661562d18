//! A page that grows, and words of lines.

use std::alloc::Global;
use std::{fmt, str};

/// Bytes to which more are added. Where memory is wanting for some, they are left out, and the page says so at its end.
pub struct Page {
    alloc: Global,
    written: Vec<u8>,
    is_cut: bool,
}

/// By hand, so that letting go of one is a call.
impl Drop for Page {
    fn drop(self) {
        let Page {
            alloc: _alloc,
            written: _written,
            is_cut: _is_cut,
        } = self;
    }
}

impl Page {
    /// An empty page.
    pub fn new(alloc: Global) -> Page {
        Page {
            alloc,
            written: Vec::new(alloc),
            is_cut: false,
        }
    }

    /// Where its memory comes from.
    pub fn alloc(&self) -> Global {
        self.alloc
    }

    /// What is written so far.
    pub fn written(&self) -> &[u8] {
        self.written.as_slice()
    }

    /// Empties the page.
    pub fn clear(&mut self) {
        self.written.clear();
    }

    /// Adds bytes as they are.
    pub fn bytes(&mut self, bytes: &[u8]) {
        if self.written.extend_from_slice(bytes).is_err() {
            self.is_cut = true;
        }
    }

    /// Adds a word.
    pub fn word(&mut self, word: &str) {
        self.bytes(word.as_bytes());
    }

    /// Adds a name, as it is shown.
    pub fn name(&mut self, name: &[u8]) {
        self.word(shown(name));
    }

    /// Adds a number.
    pub fn number(&mut self, number: u32) {
        self.display(&number);
    }

    /// Adds a number with a blank before it.
    pub fn behind_blank(&mut self, number: u32) {
        self.word(" ");
        self.number(number);
    }

    /// Adds a count, and behind it what is counted.
    pub fn count(&mut self, count: usize, what: &str) {
        self.display(&count);
        self.word(what);
    }

    /// Adds `true` or `false`.
    pub fn bit(&mut self, bit: bool) {
        self.word(if bit { "true" } else { "false" });
    }

    /// Adds what a value says of itself.
    pub fn display<T: fmt::Display>(&mut self, value: &T) {
        match format!(in self.alloc; "{value}") {
            Ok(text) => self.word(text.as_str()),
            Err(_) => self.is_cut = true,
        }
    }

    /// Adds a value as it is written in the code.
    pub fn debug<T: fmt::Debug>(&mut self, value: &T) {
        match format!(in self.alloc; "{value:?}") {
            Ok(text) => self.word(text.as_str()),
            Err(_) => self.is_cut = true,
        }
    }

    /// Adds what a fault says of itself, and behind it the name that it has, if any.
    pub fn fault<T: fmt::Display>(&mut self, fault: &T, name: &[u8]) {
        self.display(fault);
        if !name.is_empty() {
            self.word(": ");
            self.name(name);
        }
    }

    /// Ends the page: where memory was wanting, it says so.
    pub fn end(&mut self) {
        if self.is_cut {
            self.word("memory was wanting\n");
        }
    }
}

/// The bytes of a name, as they are printed.
pub fn shown(name: &[u8]) -> &str {
    match str::from_utf8(name) {
        Ok(shown) => shown,
        Err(_) => "?",
    }
}

/// The number that a word is; 0 if it is none.
pub fn number(word: &str) -> u32 {
    word.parse::<u32>().unwrap_or(0)
}
