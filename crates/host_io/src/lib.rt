//! The files on the disk, and a writer: where the program's texts come from, and where its lines go.
#![tactic(auto)]

mod disk_files;
mod out_sink;

pub use disk_files::{DiskFiles, Drained};
pub use out_sink::OutSink;
