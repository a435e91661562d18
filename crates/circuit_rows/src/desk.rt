//! What is drawn, and what a line does with it.

use crate::asks::ask;
use crate::drawing::draw;
use crate::measures::measure;
use crate::paths::{Solved, follow_path};
use crate::small::tell_small;
use crate::stop::Stop;
use crate::words::{Word, numbers_of, word_of};
use anyhow::Result;
use circuit_draft::Draft;
use std::alloc::Global;

/// The circuit that is drawn, and its paths where they were asked for.
pub struct Desk {
    draft: Draft,
    paths: Option<Solved>,
}

/// By hand, so that letting go of one is a call.
impl Drop for Desk {
    fn drop(self) {
        let Desk {
            draft: _draft,
            paths: _paths,
        } = self;
    }
}

impl Desk {
    /// With a circuit of the supplies.
    pub(crate) fn new(alloc: Global) -> Result<Desk, Stop> {
        Ok(Desk {
            draft: Draft::new(alloc)?,
            paths: None,
        })
    }

    /// Does what a line says.
    pub(crate) fn follow(&mut self, rt: HostRuntime, line: &str) -> Result<()> {
        if line.starts_with('#') {
            println!(rt; "{line}")?;
            return Ok(());
        }
        let line = line.trim();
        if line.is_empty() {
            return Ok(());
        }
        let (name, rest) = line.split_once(' ').unwrap_or((line, ""));
        let numbers = numbers_of(rt.alloc(), rest)?;
        self.obey(rt, word_of(name)?, numbers.as_slice())
    }

    /// Does what a word says.
    fn obey(&mut self, rt: HostRuntime, word: Word, numbers: &[u32]) -> Result<()> {
        match word {
            Word::Circuit => Ok(self.begin(rt.alloc())?),
            Word::Drawing(what) => Ok(draw(&mut self.draft, what, numbers)?),
            Word::Ask(what) => ask(rt, &self.draft.circuit, what, numbers),
            Word::Path(what) => follow_path(
                rt,
                &self.draft.circuit,
                &mut self.paths,
                what,
                numbers,
            ),
            Word::Measure(what) => measure(rt, &self.draft.circuit, what, numbers),
            Word::Small(scale) => tell_small(rt, scale),
        }
    }

    /// A new circuit, of the supplies alone.
    fn begin(&mut self, alloc: Global) -> Result<(), Stop> {
        self.draft = Draft::new(alloc)?;
        self.paths = None;
        Ok(())
    }
}
