//! A store for the part of all plain nets of a circuit. Each input is the variable of its place among the inputs, and
//! the root of each hold the one behind them.

ghost use Rattle.std.specs.Prelude.{◌≡◌, ◌≤◌, IsTrue};
ghost use Rattle.bdd_core.specs.Store.{IsSpan};

use crate::stop::Stop;
use bdd_core::{H, ONE, Spent, Store, ZERO};
use circuit_draft::HIGH;
use node_pool::Span;
use path_fixpoint::{NetWords, Part, are_spans, is_part, net_words, solve_part};
use plain_paths::is_flat;
use std::alloc::Global;
use vrt_model::{Circuit, Dev, Net, NetKind, Seq, Var};

/// The most nets and devices of a circuit.
const MOST: usize = 10_000;

/// The most variables of a store.
const VARS: usize = 1000;

/// What is told of a net of the part.
#[derive(Clone, Copy)]
pub enum Entry {
    /// Whether its strength is at least a level.
    Level(u32),
    /// Whether a value reaches it.
    Value(bool),
}

/// A part, and the spans of its words in a store.
pub struct Board {
    /// The diagrams of the part, with a variable for each input and then for each hold.
    pub store: Store,
    part: Part,
    gates: Span,
    roots: Span,
    out: NetWords,
}

/// By hand, so that letting go of one is a call.
impl Drop for Board {
    fn drop(self) {
        let Board {
            store: _store,
            part: _part,
            gates: _gates,
            roots: _roots,
            out: _out,
        } = self;
    }
}

/// The part of all plain nets and all devices.
fn whole_part(alloc: Global, circuit: &Circuit) -> Result<Part, Stop> {
    let mut part = Part {
        rank: 1,
        nets: Seq::new(alloc),
        devices: Seq::new(alloc),
    };
    let mut number = 0u32;
    for net in circuit.nets.as_slice() {
        if net.kind == NetKind::Plain && part.nets.push(Net(number)).is_err() {
            return Err(Stop::NoMemory);
        }
        number = number.saturating_add(1);
    }
    for number in 0..circuit.devices.len().min(MOST) as u32 {
        if part.devices.push(Dev(number)).is_err() {
            return Err(Stop::NoMemory);
        }
    }
    Ok(part)
}

/// How many variables the inputs and the holds have.
fn variables(circuit: &Circuit) -> u32 {
    let nets = circuit.nets.as_slice();
    let inputs = nets.iter().filter(|net| net.kind == NetKind::Input).count();
    inputs.saturating_add(circuit.holds.len()).min(VARS) as u32
}

/// Whether a span is live in a store.
pub(crate) fn is_live(store: &Store, span: Span) -> bool
    ensures { IsTrue result → IsSpan store.now span }
{
    let words = store.mark().words as u64;
    store.own_words() <= span.start && span.start as u64 + span.len as u64 <= words
}

/// Sets a word of a span to a handle.
pub(crate) fn put(store: &mut Store, span: Span, at: u32, handle: H) {
    if at < span.len && is_live(store, span) {
        store.write(span, at, handle.0);
    }
}

/// The handle in a word of a span.
pub(crate) fn word(store: &Store, span: Span, at: u32) -> H {
    if at < span.len && is_live(store, span) {
        return H(store.read(span, at));
    }
    ZERO
}

/// The bit of a variable.
pub(crate) fn bit(store: &mut Store, var: u32) -> Result<H, Stop> {
    if var >= store.vars() {
        return Err(Stop::Unfit);
    }
    Ok(store.bit(Var(var))?)
}

/// A span of so many words.
pub(crate) fn take(store: &mut Store, words: u32) -> Result<Span, Stop> {
    match store.take_span(words) {
        Some(span) => Ok(span),
        None => Err(Stop::NoMemory),
    }
}

impl Board {
    /// With the bits of the inputs and holds of a circuit.
    pub(crate) fn open(alloc: Global, circuit: &Circuit, budget: u32) -> Result<Board, Stop> {
        let part = whole_part(alloc, circuit)?;
        let nets = circuit.nets.len().min(MOST) as u32;
        let words = net_words(circuit.source_level()) * part.nets.len().min(MOST) as u32;
        let budget = budget.clamp(2, 64_000_000);
        let vars = variables(circuit).min(VARS as u32);
        let mut store = Store::with_budget(alloc, budget, 2 * nets + words, vars)?;
        let gates = take(&mut store, nets)?;
        let roots = take(&mut store, nets)?;
        let out = NetWords::new(circuit, take(&mut store, words)?);
        let mut board = Board {
            store,
            part,
            gates,
            roots,
            out,
        };
        board.put_bits(circuit)?;
        Ok(board)
    }

    /// Writes the handles of the gates and the roots: those of the high supply, the inputs in order, and the holds.
    fn put_bits(&mut self, circuit: &Circuit) -> Result<(), Stop> {
        put(&mut self.store, self.gates, HIGH.0, ONE);
        put(&mut self.store, self.roots, HIGH.0, ONE);
        let mut var = 0u32;
        let mut at = 0u32;
        for net in circuit.nets.as_slice() {
            if net.kind == NetKind::Input {
                let input = bit(&mut self.store, var)?;
                put(&mut self.store, self.gates, at, input);
                put(&mut self.store, self.roots, at, input);
                var = var.saturating_add(1);
            }
            at = at.saturating_add(1);
        }
        for hold in circuit.holds.as_slice() {
            let held = bit(&mut self.store, var)?;
            put(&mut self.store, self.roots, hold.net.0, held);
            var = var.saturating_add(1);
        }
        Ok(())
    }

    /// How many nets and devices the part has.
    pub(crate) fn size(&self) -> (usize, usize) {
        (self.part.nets.len(), self.part.devices.len())
    }

    /// Solves the part.
    #[tactic(auto, using(vrt_model::proofs::Networks::flat_ranges))]
    pub(crate) fn solve(&mut self, circuit: &Circuit) -> Result<Result<(), Spent>, Stop> {
        let part = &self.part;
        let (gates, roots, out) = (self.gates, self.roots, self.out.span);
        if !is_flat(circuit)
            || !is_part(circuit, part)
            || !are_spans(&self.store, circuit, part, gates, roots, out)
        {
            return Err(Stop::Unfit);
        }
        Ok(solve_part(&mut self.store, circuit, part, gates, roots, out))
    }

    /// The handle of the gates at a net.
    pub(crate) fn gate(&self, net: u32) -> H {
        word(&self.store, self.gates, net)
    }

    /// The source level of the circuit.
    pub(crate) fn source(&self) -> u32
        ensures { result ≤ 255 }
    {
        self.out.source as u32
    }

    /// Which word of a net has an entry, from 1 on; 0 for a level above the source level.
    fn number(&self, entry: Entry) -> u32 {
        let source = self.out.source as u32;
        match entry {
            Entry::Level(level) => {
                if level > source {
                    return 0;
                }
                level
            }
            Entry::Value(value) => source + 1 + value as u32,
        }
    }

    /// The handle of an entry of the net at a place of the part.
    pub(crate) fn entry(&self, place: usize, entry: Entry) -> H {
        let (number, words) = (self.number(entry), net_words(self.out.source));
        if place > MOST || number < 1 || number > words {
            return ZERO;
        }
        word(
            &self.store,
            self.out.span,
            words * place as u32 + number - 1,
        )
    }

    /// The place of a net in the part.
    pub(crate) fn place(&self, net: Net) -> Option<usize> {
        self.part
            .nets
            .as_slice()
            .iter()
            .position(|here| *here == net)
    }
}
