//! Lines that are put.

ghost use Rattle.std.specs.Prelude.{◌≡◌, ◌≢◌, ◌≤◌, IfErr, OnOk};
ghost use Rattle.std.specs.Io.KnownBytes.{Appends};
ghost use Rattle.verity_run.specs.Messages.{joined};
ghost use Rattle.verity_run.specs.Runs.{PutsLine, RefusalEnds, StopsLine, StopsLines};

use crate::refusals::Refusal;
use crate::status::Status;
use vrt_io::{Put, Sink};
use vrt_model::Text;

/// Puts a line by one put, or says how the run ends where that fails.
pub fn put_line<O: Sink>(out: &mut O, line: &[u8]) -> Result<(), Status>
    ensures put { OnOk result (Appends (O.written out.old) (O.written out.new) line.now) }
    ensures stopped { IfErr result (λ end. StopsLine end line.now (O.written out.old) (O.written out.new) (O.faults out.old) (O.faults out.new)) }
    ensures later { O.faults out.old ≤ O.faults out.new }
{
    match out.put(line) {
        Put::Done => Ok(()),
        Put::Failed => Err(Status::WriteFault),
        Put::NoMemory => Err(Status::NoMemory),
    }
}

/// Puts lines one by one, or says how the run ends where that fails.
pub fn put_lines<O: Sink>(out: &mut O, lines: &[Text]) -> Result<(), Status>
    ensures put { OnOk result (Appends (O.written out.old) (O.written out.new) (joined lines.now)) }
    ensures stopped { IfErr result (λ end. StopsLines end lines.now (O.written out.old) (O.written out.new) (O.faults out.old) (O.faults out.new)) }
    ensures later { O.faults out.old ≤ O.faults out.new }
{
    for line in lines {
        put_line(out, line.as_bytes())?;
    }
    Ok(())
}

/// Puts the one line of a run, and answers the status that goes with it.
pub fn tell<O: Sink>(out: &mut O, line: &[u8], wanted: Status) -> Status
    requires fault { wanted ≢ Status.WriteFault }
    requires memory { wanted ≢ Status.NoMemory }
    ensures { PutsLine wanted result line.now (O.written out.old) (O.written out.new) (O.faults out.old) (O.faults out.new) }
{
    match put_line(out, line) {
        Ok(()) => wanted,
        Err(end) => end,
    }
}

/// Puts the line of a refusal, where it has one.
pub fn refuse<O: Sink>(out: &mut O, refusal: &Refusal) -> Status
    ensures { RefusalEnds refusal.now result (O.written out.old) (O.written out.new) (O.faults out.old) (O.faults out.new) }
{
    match refusal {
        Refusal::Unread(line) => tell(out, line.as_bytes(), Status::ReadFault),
        Refusal::Told(line) => tell(out, line.as_bytes(), Status::InputRefused),
        Refusal::NoMemory => Status::NoMemory,
    }
}
