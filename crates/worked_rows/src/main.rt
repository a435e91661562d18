//! Runs over files in memory, each with what it answers and writes. Standard input says what each run is given, a line at a
//! time (`script`): the verdict on a cell and its workspace, the words, failures of the files and of the output, and texts
//! that were cut off. Behind them the files and sinks alone: in memory, and on the disk.
#![tactic(auto)]

mod fronts;
mod host;
mod memory;
mod rooms;
mod row;
mod script;
mod told;
mod verdicts;
mod wholes;

use row_script::Page;
use script::Runs;
use std::io;
use std::io::Write;

fn main(rt: HostRuntime) -> io::Result<()> {
    let mut page = Page::new(rt.alloc());
    let mut runs = Runs::new(rt.alloc());
    for line in rt.lines(rt.alloc()) {
        runs.take(&mut page, line?.as_str());
    }
    memory::tell_loads(&mut page);
    memory::tell_puts(&mut page);
    memory::tell_sure_ones(&mut page);
    memory::tell_later_runs(&mut page);
    host::write_long(rt, &mut page)?;
    host::tell_loads(rt, &mut page);
    host::tell_puts(&mut page);
    page.end();
    io::writer(&rt).write_all(page.written())
}
