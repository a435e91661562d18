//! A store with the bits of variables in its words.

use crate::checks::is_live;
use crate::stop::Stop;
use bdd_core::{H, ONE, Store, ZERO};
use known_nets::is_plain;
use node_pool::Span;
use plain_paths::bit;
use std::alloc::Global;
use vrt_model::{Circuit, NetKind, Phase, Var};

/// The most nodes of a store.
const BUDGET: u32 = 10000;

/// The most words of a span, and variables of a store.
const MOST: usize = 1000;

/// A store and a span in it.
pub struct Board {
    /// The diagrams.
    pub store: Store,
    /// Handles, each 0 at first: of the ports of a cell, or of the nets of a circuit.
    pub values: Span,
}

/// By hand, so that letting go of one is a call.
impl Drop for Board {
    fn drop(self) {
        let Board {
            store: _store,
            values: _values,
        } = self;
    }
}

/// Sets a word of a span to a handle.
fn put(store: &mut Store, span: Span, at: u32, handle: H) {
    if at < span.len && is_live(store, span) {
        store.write(span, at, handle.0);
    }
}

/// The handle in a word of a span.
pub(crate) fn word(store: &Store, span: Span, at: u32) -> H {
    if at < span.len && is_live(store, span) {
        return H(store.read(span, at));
    }
    ZERO
}

/// Sets a word of a span to the bit of a variable.
fn put_bit(store: &mut Store, span: Span, at: u32, var: u32) -> Result<(), Stop> {
    if var >= store.vars() {
        return Err(Stop::Unfit);
    }
    let bit = store.bit(Var(var))?;
    put(store, span, at, bit);
    Ok(())
}

/// How many inputs a circuit has.
pub(crate) fn inputs(circuit: &Circuit) -> usize {
    let nets = circuit.nets.as_slice();
    nets.iter().filter(|net| net.kind == NetKind::Input).count()
}

impl Board {
    /// With so many words and variables.
    pub(crate) fn open(alloc: Global, words: usize, vars: usize) -> Result<Board, Stop> {
        if words > MOST || vars > MOST {
            return Err(Stop::Unfit);
        }
        let Ok(mut store) = Store::with_budget(alloc, BUDGET, words as u32, vars as u32) else {
            return Err(Stop::NoMemory);
        };
        match store.take_span(words as u32) {
            Some(values) => Ok(Board { store, values }),
            None => Err(Stop::NoMemory),
        }
    }

    /// Gives each word of a span the variable of its place.
    pub(crate) fn put_all(&mut self, span: Span) -> Result<(), Stop> {
        for at in 0..span.len {
            put_bit(&mut self.store, span, at, at)?;
        }
        Ok(())
    }

    /// Gives the high supply the constant 1, and each input of a circuit the variable of its place among the inputs.
    pub(crate) fn put_inputs(&mut self, circuit: &Circuit) -> Result<(), Stop> {
        put(&mut self.store, self.values, 1, ONE);
        let (mut at, mut var) = (0u32, 0u32);
        for net in circuit.nets.as_slice() {
            if net.kind == NetKind::Input {
                put_bit(&mut self.store, self.values, at, var)?;
                var = var.saturating_add(1);
            }
            at = at.saturating_add(1);
        }
        Ok(())
    }

    /// The same, and gives each net that carries a clock the constant of its bit in a phase.
    pub(crate) fn put_given(&mut self, circuit: &Circuit, phase: &Phase) -> Result<(), Stop> {
        self.put_inputs(circuit)?;
        let mut at = 0u32;
        for net in circuit.nets.as_slice() {
            if let NetKind::Clock(clock) = net.kind {
                let is_one = bit(phase.bits.as_slice(), clock.clock as usize) != clock.inverted;
                let constant = if is_one { ONE } else { ZERO };
                put(&mut self.store, self.values, at, constant);
            }
            at = at.saturating_add(1);
        }
        Ok(())
    }

    /// Gives each plain net with a hold the variable of the hold: they stand behind the inputs, in the order of the holds. A
    /// hold elsewhere has one too, which nothing reads.
    pub(crate) fn put_holds(&mut self, circuit: &Circuit) -> Result<(), Stop> {
        let mut var = inputs(circuit).min(MOST) as u32;
        for hold in circuit.holds.as_slice() {
            if is_plain(circuit, hold.net.0 as usize) {
                put_bit(&mut self.store, self.values, hold.net.0, var)?;
            }
            var = var.saturating_add(1);
        }
        Ok(())
    }
}
