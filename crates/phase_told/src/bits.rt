//! The bits of valuations.

ghost use Rattle.std.specs.Prelude.{◌≡◌, ◌≤◌, IfOk};
ghost use Rattle.bdd_core.specs.Store.{IsSpan};
ghost use Rattle.phase_told.specs.Valuations.{valuation_in};

use bdd_core::Store;
use node_pool::Span;
use std::alloc::Global;
use vrt_model::{NoMemory, Seq, Valuation};

/// The valuation that stands in the first so many words of a span: 1 where the word is 1.
pub(crate) fn read_bits(
    store: &Store,
    words: Span,
    count: u32,
    alloc: Global,
) -> Result<Valuation, NoMemory>
    requires words { IsSpan store.now words }
    requires count { count ≤ words.len }
    ensures { IfOk result (λ v. v.bits ≡ valuation_in store.now words count) }
{
    let mut bits = Seq::new(alloc);
    for x in 0..count {
        let word = store.read(words, x);
        bits.append(word == 1)?;
    }
    Ok(Valuation { bits })
}
