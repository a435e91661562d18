//! How many nodes known functions have, and how long it takes to make one.

use crate::functions::{ALL, Known, make, name};
use crate::stop::Stop;
use bdd_core::{H, Store};
use row_script::Page;
use std::alloc::Global;
use std::io;
use std::time::Instant;

/// The budget of nodes where none is given.
const BUDGET: u32 = 4_000_000;

/// How many variables the store has.
const VARS: u32 = 1000;

/// A store of 1,000 variables, with a budget of so many nodes, at least 2 and at most 64,000,000.
fn open(alloc: Global, budget: u32) -> Result<Store, Stop> {
    let budget = budget.clamp(2, 64_000_000);
    Ok(Store::with_budget(alloc, budget, 0, VARS)?)
}

/// Has a place of a diagram counted.
fn reach(seen: &mut [bool], place: u32) {
    if let Some(here) = seen.get_mut(place as usize) {
        *here = true;
    }
}

/// How many nodes the diagram of a handle has, without the two constants.
fn size(alloc: Global, store: &Store, root: H) -> Result<usize, Stop> {
    let count = store.node_count();
    let mut seen = vec![in alloc; false; count as usize]?;
    reach(seen.as_mut_slice(), root.0);
    for place in (0..count).rev() {
        if seen.get(place as usize) == Some(&true)
            && let Some(node) = store.node(H(place))
        {
            reach(seen.as_mut_slice(), node.lo);
            reach(seen.as_mut_slice(), node.hi);
        }
    }
    Ok(seen.iter().skip(2).filter(|here| **here).count())
}

/// Makes a function and tells its nodes, and those of the store, with the two constants.
fn tell_count(page: &mut Page, known: Known) -> Result<(), Stop> {
    let mut store = open(page.alloc(), BUDGET)?;
    let root = make(&mut store, known)?;
    let nodes = size(page.alloc(), &store, root)?;
    page.word(name(known));
    page.word(": ");
    page.count(nodes, " nodes,");
    page.behind_blank(store.node_count());
    page.word(" in the store\n");
    Ok(())
}

/// Tells the nodes of each function.
pub(crate) fn tell(page: &mut Page) -> Result<(), Stop> {
    for known in ALL {
        tell_count(page, known)?;
    }
    Ok(())
}

/// The function that the word behind the program's name is the name of.
fn known_of(words: &[String]) -> Option<Known> {
    let word = words.get(1)?;
    for known in ALL {
        if name(known) == word.as_str() {
            return Some(known);
        }
    }
    None
}

/// The number that a word is, or another one where there is none.
fn number_or(word: Option<&String>, otherwise: u32) -> u32 {
    match word {
        Some(word) => word.as_str().parse::<u32>().unwrap_or(otherwise),
        None => otherwise,
    }
}

/// Makes a function so many times.
fn make_often(store: &mut Store, known: Known, times: u32) -> Result<(), Stop> {
    for _ in 0..times {
        make(store, known)?;
    }
    Ok(())
}

/// Tells the microseconds of opening a store and of making a function, and the nodes of the store then.
fn tell_took(page: &mut Page, known: Known, took: [u128; 2], nodes: u32) {
    let [opened, made] = took;
    page.word(name(known));
    page.word(" open ");
    page.display(&opened);
    page.word(" made ");
    page.display(&made);
    page.word(" count");
    page.behind_blank(nodes);
    page.word("\n");
}

/// Makes a function so many times in one store, and tells how long it took.
fn time(
    rt: HostRuntime,
    page: &mut Page,
    known: Known,
    budget: u32,
    times: u32,
) -> io::Result<Result<(), Stop>> {
    let start = Instant::now(&rt)?;
    let mut store = match open(page.alloc(), budget) {
        Ok(store) => store,
        Err(stop) => return Ok(Err(stop)),
    };
    let opened = start.elapsed(&rt)?.as_micros();
    let start = Instant::now(&rt)?;
    let done = make_often(&mut store, known, times);
    let made = start.elapsed(&rt)?.as_micros();
    if done.is_ok() {
        tell_took(page, known, [opened, made], store.node_count());
    }
    Ok(done)
}

/// Tells how long it takes to make the function that the words ask for: its name, the budget, and how many times.
pub(crate) fn tell_time(
    rt: HostRuntime,
    page: &mut Page,
    words: &[String],
) -> io::Result<Result<(), Stop>> {
    let Some(known) = known_of(words) else {
        page.word("no such function\n");
        return Ok(Ok(()));
    };
    let (budget, times) = (number_or(words.get(2), BUDGET), number_or(words.get(3), 1));
    time(rt, page, known, budget, times)
}
