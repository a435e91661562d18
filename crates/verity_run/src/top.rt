//! The top call.

ghost use Rattle.std.specs.Prelude.{◌≡◌, ◌⊎◌};
ghost use Rattle.command_line.specs.Command.{texts};
ghost use Rattle.command_line.specs.Requests.{IsUsage};
ghost use Rattle.vrt_io.specs.Causes.{Rose};
ghost use Rattle.verity_run.specs.Asked.{IsFitting};
ghost use Rattle.verity_run.specs.Reads.{source_of};
ghost use Rattle.verity_run.specs.Runs.{Begins, BeginsRequest, Ends, Serves, Wants};

use crate::answers::answer;
use crate::messages;
use crate::puts::{refuse, tell};
use crate::ready::ready_for;
use crate::status::Status;
use command_line::{Asked, Request, WordsFault, read_words};
use std::alloc::Global;
use vrt_io::{Files, Sink};

/// Serves a request: what it is answered from is made ready, and answered, or what is in the way is told.
fn serve<F: Files, O: Sink>(
    alloc: Global,
    request: &Request<'_>,
    files: &mut F,
    out: &mut O,
) -> Status
    requires { IsFitting request.now }
    ensures { Ends (Serves request.now (source_of (F.told files.old) (F.gave files.new) (F.failed files.new)) (F.faults files.old) (F.faults files.new)) (BeginsRequest request.now (source_of (F.told files.old) (F.gave files.new) (F.failed files.new)))
        result (O.written out.old) (O.written out.new) (O.faults out.old) (O.faults out.new) }
{
    match ready_for(alloc, request, files) {
        Ok(ready) => answer(alloc, request, &ready, out),
        Err(refusal) => refuse(out, &refusal),
    }
}

/// Does all that the program does. The first word is the program's name; the others are those of its command line. A line
/// is written for each cell that is asked for, its verdict, before the next cell is compared, those that stand in a cell before
/// it; or one line that says why no cell is compared; or help or the version, where they are asked for.
pub fn run<F: Files, O: Sink>(alloc: Global, words: &[String], files: &mut F, out: &mut O) -> Status
    // Each answer has its cause, and its lines are written. Where the output failed, a front of them is, or of the first lines of
    // a report; for want of memory whole first lines of a report, or nothing.
    ensures answers { Ends (Wants (texts words.now) (source_of (F.told files.old) (F.gave files.new) (F.failed files.new)) (F.faults files.old) (F.faults files.new)) (Begins (texts words.now) (source_of (F.told files.old) (F.gave files.new) (F.failed files.new)))
        result (O.written out.old) (O.written out.new) (O.faults out.old) (O.faults out.new) }
    ensures usage { result ≡ Status.Usage → IsUsage (texts words.now) }
    ensures refused_words { IsUsage (texts words.now) → (result ≡ Status.Usage) ⊎ ((result ≡ Status.WriteFault) ⊎ (result ≡ Status.NoMemory)) }
    ensures read { result ≡ Status.ReadFault → Rose (F.faults files.old) (F.faults files.new) }
    ensures write { result ≡ Status.WriteFault → Rose (O.faults out.old) (O.faults out.new) }
{
    match read_words(alloc, words) {
        Ok(Asked::Help) => tell(out, command_line::help(), Status::AllEqual),
        Ok(Asked::Version) => tell(out, command_line::version(), Status::AllEqual),
        Ok(Asked::Run(request)) => serve(alloc, &request, files, out),
        Err(WordsFault::Usage) => tell(out, messages::usage(), Status::Usage),
        Err(WordsFault::NoMemory) => Status::NoMemory,
    }
}
