//! What the files on the disk answer, and a sink over a writer that takes two bytes at a time and fails once it has six.

use crate::memory::{load_all, long, put_all};
use host_io::{DiskFiles, OutSink};
use row_script::Page;
use std::io::Write;
use std::{fs, io};
use vrt_io::MAX_FILE_LEN;

/// A writer that takes two bytes at a time, and fails once it has six.
struct Narrow {
    /// How many bytes it has.
    taken: usize,
}

/// By hand, so that letting go of one is a call.
impl Drop for Narrow {
    fn drop(self) {
        let Narrow { taken: _taken } = self;
    }
}

impl Write for Narrow {
    fn write(&mut self, buf: &[u8]) -> io::Result<usize> {
        if self.taken >= 6 {
            return Err(io::Error::from(io::ErrorKind::Other));
        }
        let count = buf.len().min(2);
        self.taken += count;
        Ok(count)
    }

    fn flush(&mut self) -> io::Result<()> {
        Ok(())
    }
}

/// Writes a file of one byte more than a file may have.
pub(crate) fn write_long(rt: HostRuntime, page: &mut Page) -> io::Result<()> {
    let long = long(page, MAX_FILE_LEN + 1);
    fs::write(&rt, "long.txt", long.as_slice())
}

/// A short file, one that is not there, a folder, and a file that is too long.
pub(crate) fn tell_loads(rt: HostRuntime, page: &mut Page) {
    let mut files = DiskFiles::new(&rt);
    load_all(page, &mut files, "short.txt missing.txt . long.txt");
}

/// Puts into a writer that fails at the second.
pub(crate) fn tell_puts(page: &mut Page) {
    let mut out = OutSink::new(Narrow { taken: 0 });
    put_all(page, &mut out, "five5,more");
}
