//! What a request is answered from: read, judged, ordered and prepared, or refused.

ghost use Rattle.std.specs.Prelude.{◌≡◌, ◌≤◌, IfErr, IfOk, length};
ghost use Rattle.command_line.specs.Requests.{file_names};
ghost use Rattle.generator.specs.Texts.{IsSize};
ghost use Rattle.verity_run.specs.Asked.{IsFitting};
ghost use Rattle.verity_run.specs.Given.{bytes_in, bytes_of, generated, given, names_in};
ghost use Rattle.verity_run.specs.Reads.{source_of};
ghost use Rattle.verity_run.specs.Ready.{IsReady, IsReadyBy, IsReadyFor};
ghost use Rattle.verity_run.specs.Runs.{AnswersTexts, Serves, TellsAnswer, names_by};

use crate::checks::{asked_cells, order_cells};
use crate::reads::{Texts, read_files};
use crate::refusals::{Bytes, Inputs, Refusal, read_texts, unread};
use command_line::{FileWords, Request};
use generator::generate;
use prepared_tables::{Prepared, prepare};
use std::alloc::Global;
use vrt_io::Files;
use vrt_model::Seq;

/// What a request is answered from.
pub struct Ready {
    /// What the three texts say, of which nothing is refused; the cells have an order.
    pub inputs: Inputs,
    /// The tables of what they say, made once for all cells.
    pub prepared: Prepared,
    /// The cells that are asked for, each behind those that stand in it.
    pub cells: Seq<u32>,
}

/// By hand, so that letting go of one is a call.
impl Drop for Ready {
    fn drop(self) {
        let Ready {
            inputs: _inputs,
            prepared: _prepared,
            cells: _cells,
        } = self;
    }
}

/// Reads three texts, each under its name, orders the cells, makes the tables, and takes the cells that are asked for: all
/// this, or the first refusal in this order.
fn of_texts(
    alloc: Global,
    request: &Request<'_>,
    words: &FileWords<'_>,
    bytes: &Bytes<'_>,
) -> Result<Ready, Refusal>
    requires spice { length bytes.now.spice.now ≤ 16777216 }
    requires blif { length bytes.now.blif.now ≤ 16777216 }
    requires rules { length bytes.now.rules.now ≤ 16777216 }
    ensures ok { IfOk result IsReady }
    ensures says { IfOk result (IsReadyBy request.now (given (names_in words.now) (bytes_of bytes.now))) }
    ensures err { IfErr result (TellsAnswer (AnswersTexts request.now (given (names_in words.now) (bytes_of bytes.now)))) }
{
    let inputs = read_texts(alloc, words, bytes)?;
    let order = order_cells(alloc, words, &inputs)?;
    let prepared = prepare(alloc, &inputs.design, &inputs.blif, &inputs.rules)?;
    let cells = asked_cells(alloc, request, &prepared.index, &inputs.design, order)?;
    Ok(Ready {
        inputs,
        prepared,
        cells,
    })
}

/// The bytes of three files.
fn bytes_in(texts: &Texts) -> Bytes<'_>
    ensures { bytes_of result ≡ bytes_in texts.now }
{
    Bytes {
        spice: texts.spice.as_slice(),
        blif: texts.blif.as_slice(),
        rules: texts.rules.as_slice(),
    }
}

/// The same of the three files that a request names.
fn of_files<F: Files>(
    alloc: Global,
    request: &Request<'_>,
    words: &FileWords<'_>,
    files: &mut F,
) -> Result<Ready, Refusal>
    requires { file_names request.now ≡ names_by (names_in words.now) }
    ensures ok { IfOk result IsReady }
    ensures says { IfOk result (IsReadyFor request.now (source_of (F.told files.old) (F.gave files.new) (F.failed files.new))) }
    ensures err { IfErr result (TellsAnswer (Serves request.now (source_of (F.told files.old) (F.gave files.new) (F.failed files.new)) (F.faults files.old) (F.faults files.new))) }
{
    match read_files(alloc, files, words) {
        Ok(texts) => of_texts(alloc, request, words, &bytes_in(&texts)),
        Err(stopped) => Err(unread(alloc, &stopped)),
    }
}

/// The same of the three texts that are generated for a size.
fn of_size(alloc: Global, request: &Request<'_>, size: u32) -> Result<Ready, Refusal>
    requires { IsSize size }
    ensures ok { IfOk result IsReady }
    ensures says { IfOk result (IsReadyBy request.now (generated size)) }
    ensures err { IfErr result (TellsAnswer (AnswersTexts request.now (generated size))) }
{
    let words = FileWords {
        spice: "SPICE",
        blif: "BLIF",
        rules: "RULES",
    };
    let made = generate(alloc, size)?;
    let bytes = Bytes {
        spice: made.spice.as_bytes(),
        blif: made.blif.as_bytes(),
        rules: made.rules.as_bytes(),
    };
    of_texts(alloc, request, &words, &bytes)
}

/// What a request is answered from: its files, or the texts of its size, read, judged, ordered and prepared; or the first
/// refusal, of which each is an answer.
pub fn ready_for<F: Files>(
    alloc: Global,
    request: &Request<'_>,
    files: &mut F,
) -> Result<Ready, Refusal>
    requires { IsFitting request.now }
    ensures ok { IfOk result IsReady }
    ensures says { IfOk result (IsReadyFor request.now (source_of (F.told files.old) (F.gave files.new) (F.failed files.new))) }
    ensures err { IfErr result (TellsAnswer (Serves request.now (source_of (F.told files.old) (F.gave files.new) (F.failed files.new)) (F.faults files.old) (F.faults files.new))) }
{
    match request {
        Request::Check { files: words, .. } => of_files(alloc, request, words, files),
        Request::Replay { files: words, .. } => of_files(alloc, request, words, files),
        Request::Classes { files: words, .. } => of_files(alloc, request, words, files),
        Request::Arrive { files: words, .. } => of_files(alloc, request, words, files),
        Request::Blif { files: words, .. } => of_files(alloc, request, words, files),
        Request::Generate { size, .. } => of_size(alloc, request, *size),
    }
}
