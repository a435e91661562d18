//! What is found of the steps at which a net rises, and the bits of a step in words.

ghost use Rattle.std.specs.Prelude.{◌≡◌, IfOk};
ghost use Rattle.bdd_core.specs.Store.{IsSpan};
ghost use Rattle.domino_order.specs.Runs.{bits_there};

use bdd_core::Store;
use node_pool::Span;
use std::alloc::Global;
use vrt_model::{NoMemory, Seq, Valuation};

/// What is found of the steps at which a net rises.
#[derive(Drop)]
pub enum NetFound {
    /// Each holds.
    Holds,
    /// The bits at which one fails.
    Fails(Valuation),
    /// The budget of nodes is used up.
    Spent,
}

/// The bits that stand in the words of a span: 1 where the word is 1.
pub(crate) fn read_bits(store: &Store, words: Span, alloc: Global) -> Result<Seq<bool>, NoMemory>
    requires words { IsSpan store.now words }
    ensures { IfOk result (λ bits. bits ≡ bits_there store.now words) }
{
    let mut bits = Seq::new(alloc);
    for x in 0..words.len {
        let word = store.read(words, x);
        bits.append(word == 1)?;
    }
    Ok(bits)
}
