//! Circuits that are drawn on standard input, and what is found of them.
//!
//! A line that begins with `#` is told as it is. Each other line has a word and numbers: it draws a net, a device or a hold,
//! or it asks for something, which a line tells. Nets 0 and 1 are the supplies.
#![tactic(auto)]

mod asks;
mod board;
mod classes;
mod desk;
mod drawing;
mod measures;
mod paths;
mod small;
mod stop;
mod values;
mod words;

use anyhow::Result;
use desk::Desk;

fn main(rt: HostRuntime) -> Result<()> {
    let mut desk = Desk::new(rt.alloc())?;
    for line in rt.lines(rt.alloc()) {
        let line = line?;
        desk.follow(rt, line.as_str())?;
    }
    Ok(())
}
