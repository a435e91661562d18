//! Values of functions at all valuations.

ghost use Rattle.std.specs.Prelude.{◌≤◌};

use crate::groups::net_name;
use crate::stop::Stop;
use bdd_core::{H, Store};
use bdd_ops::value_at;
use row_script::Page;
use std::alloc::Global;
use vrt_model::{Circuit, Seq, Valuation};

/// The most variables of a function whose bits are told.
const FEW: u32 = 8;

/// The valuation of a number over so many variables: the first is the highest bit.
fn valuation(alloc: Global, vars: u32, number: u32) -> Result<Valuation, Stop>
    requires { vars ≤ 8 }
{
    let mut bits = Seq::new(alloc);
    for var in 0..vars {
        bits.append(number >> (vars - 1 - var) & 1 == 1)?;
    }
    Ok(Valuation { bits })
}

/// The value of a function at a valuation at which another is 1, a digit; where the other is 0, a dash.
fn digit(alloc: Global, store: &Store, area: H, f: H, number: u32) -> Result<&'static str, Stop>
    requires { store.now.vars ≤ 8 }
{
    let at = valuation(alloc, store.vars(), number)?;
    let count = store.node_count();
    if area.0 >= count || f.0 >= count || (store.vars() as usize) > at.bits.len() {
        return Err(Stop::Unfit);
    }
    if !value_at(store, area, &at) {
        return Ok("-");
    }
    Ok(if value_at(store, f, &at) { "1" } else { "0" })
}

/// Adds the bits of a function at the valuations at which another is 1, and a dash at every other: with the constant 1 all bits.
pub(crate) fn add_bits(page: &mut Page, store: &Store, area: H, f: H) -> Result<(), Stop> {
    if store.vars() > FEW {
        return Err(Stop::Unfit);
    }
    for number in 0..1u32 << store.vars() {
        page.word(digit(page.alloc(), store, area, f, number)?);
    }
    Ok(())
}

/// Adds the name of a net, and the bits of a function of it at the valuations at which another is 1.
pub(crate) fn add_net(
    page: &mut Page,
    store: &Store,
    circuit: &Circuit,
    net: u32,
    area: H,
    f: H,
) -> Result<(), Stop> {
    page.word(net_name(circuit, net));
    page.word(" ");
    add_bits(page, store, area, f)
}
