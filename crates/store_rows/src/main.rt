//! Lists, the pool and the store beside what is known of them: a line tells what each row gives, or how many of its cases came
//! out as they must. With the words FUNCTION BUDGET TIMES, a known function is made so many times over in one store, and the line
//! tells the microseconds of opening the store and of making the function, and the nodes of the store.
//!
//! | module | of what |
//! |---|---|
//! | `lists`, `pools` | texts and lists, a pool of nodes and words |
//! | `filling`, `budget`, `least` | a store that is filled and left, a budget met exactly, the least valuation |
//! | `operations`, `tables` | all functions of three variables beside their tables |
//! | `functions`, `bench` | known functions of many variables: the nodes of their diagrams, and of the store that made them |
#![tactic(auto)]

mod bench;
mod budget;
mod filling;
mod functions;
mod gates;
mod handles;
mod least;
mod lists;
mod operations;
mod pools;
mod spans;
mod stop;
mod tables;
mod values;

use row_script::Page;
use std::io::Write;
use std::{env, io};
use stop::Stop;

/// Tells the rows of lists and stores.
fn tell_rows(page: &mut Page) -> Result<(), Stop> {
    lists::tell_text(page)?;
    lists::tell_list(page)?;
    pools::tell_nodes(page)?;
    pools::tell_words(page)?;
    filling::tell(page)?;
    operations::tell(page)?;
    tables::tell(page)?;
    budget::tell(page)?;
    least::tell(page)?;
    bench::tell(page)
}

/// Tells why the rows ended early, where they did.
fn tell_stop(page: &mut Page, told: Result<(), Stop>) {
    if let Err(stop) = told {
        page.debug(&stop);
    }
}

fn main(rt: HostRuntime) -> io::Result<()> {
    let words = env::args(&rt)?.collect::<Vec<String>>(rt.alloc())?;
    let mut page = Page::new(rt.alloc());
    let told = if words.len() > 1 {
        bench::tell_time(rt, &mut page, words.as_slice())?
    } else {
        tell_rows(&mut page)
    };
    tell_stop(&mut page, told);
    page.end();
    io::writer(&rt).write_all(page.written())
}
