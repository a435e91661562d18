//! Covers and models, latches among them, beside what is known of them: a line tells what each row gives, or how many of its
//! cases came out as they must.
//!
//! | module | of what |
//! |---|---|
//! | `covers` | covers beside truth tables |
//! | `models`, `latches` | a chain, a ring and constants; latches of each kind |
#![tactic(auto)]

mod checks;
mod covers;
mod latches;
mod models;
mod spans;
mod stop;
mod values;

use row_script::Page;
use std::io;
use std::io::Write;
use stop::Stop;

/// Tells the rows of covers and models.
fn tell_models(page: &mut Page) -> Result<(), Stop> {
    covers::tell(page)?;
    models::tell_chain(page)?;
    models::tell_ring(page)?;
    models::tell_constants(page)?;
    latches::tell_kinds(page)?;
    latches::tell_rings(page)
}

/// Tells why the rows ended early, where they did.
fn tell_stop(page: &mut Page, told: Result<(), Stop>) {
    if let Err(stop) = told {
        page.debug(&stop);
    }
}

fn main(rt: HostRuntime) -> io::Result<()> {
    let mut page = Page::new(rt.alloc());
    let models = tell_models(&mut page);
    tell_stop(&mut page, models);
    page.end();
    io::writer(&rt).write_all(page.written())
}
