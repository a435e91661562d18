//! A sink in memory that fails on demand.

ghost use Rattle.std.specs.Prelude.{OnOk, OnErr, ◌≡◌, ◌≢◌, ◌≤◌, ◌+◌, ◌-◌, ◌^◌, ◌++◌, ℕ, List, [], Some, None, IfSome, length, take, min, find, option_map, ◌==◌};
ghost use Rattle.vrt_io.specs.declared.mem_sink.Failure.{Failure};

use crate::NoMemory;
use crate::sink::{Put, Sink};
use std::alloc::Global;

/// The call that fails, counted from 1, and how many bytes it takes before.
#[derive(Clone, Copy)]
pub struct Failure {
    /// Which call of `put` fails, counted from 1.
    pub call: u32,
    /// How many bytes of its piece that call takes at most.
    pub kept: u32,
}

/// A sink in memory, which fails where it is told to.
pub struct MemSink {
    bytes: Vec<u8>,
    failures: Vec<Failure>,
    calls: u32,
    faults: u64,
}

/// By hand, so that letting go of one is a call.
impl Drop for MemSink {
    fn drop(self) {
        let MemSink {
            bytes: _bytes,
            failures: _failures,
            calls: _calls,
            faults: _faults,
        } = self;
    }
}

impl MemSink {
    ghost use Rattle.vrt_io.specs.MemSink.{sink_bytes, sink_faults, put_plan_of, with_put_failure};

    /// An empty sink that does not fail. It takes no memory.
    pub fn new(alloc: Global) -> MemSink
        ensures bytes { sink_bytes result ≡ [] }
        ensures faults { sink_faults result ≡ 0 }
        ensures plan { put_plan_of result ≡ record { calls = 0; failing = [] } }
    {
        MemSink {
            bytes: Vec::new(alloc),
            failures: Vec::new(alloc),
            calls: 0,
            faults: 0,
        }
    }

    /// What was put.
    pub fn bytes(&self) -> &[u8]
        ensures { result.now ≡ sink_bytes self.now }
    {
        &self.bytes
    }

    /// Makes a call, counted from 1, take at most `kept` bytes and fail.
    pub fn fail_at(&mut self, call: u32, kept: u32) -> Result<(), NoMemory>
        ensures bytes { sink_bytes self.new ≡ sink_bytes self.old }
        ensures faults { sink_faults self.new ≡ sink_faults self.old }
        ensures plan { OnOk result (put_plan_of self.new ≡ with_put_failure (put_plan_of self.old) call kept) }
        ensures err { OnErr result (put_plan_of self.new ≡ put_plan_of self.old) }
    {
        match self.failures.push(Failure { call, kept }) {
            Ok(()) => Ok(()),
            Err(_) => Err(NoMemory),
        }
    }
}

/// How many bytes a call takes before it fails, if it is to fail.
fn kept_by(failures: &[Failure], call: u32) -> Option<u32>
    ensures { result ≡ option_map (λ (f : Failure). f.kept) (find (λ (f : Failure). f.call == call) failures.now) }
{
    let found = failures.iter().find(|failure| failure.call == call)?;
    Some(found.kept)
}

impl Sink for MemSink {
    ghost use Rattle.std.specs.Io.KnownBytes.{Appends, Keeps};
    ghost use Rattle.vrt_io.specs.MemSink.{sink_bytes, sink_faults, put_plan_of, next_failure, after_put};
    ghost use Rattle.vrt_io.specs.Puts.{PutGives};
    ghost use Rattle.vrt_io.specs.declared.sink.Put.{Put};

    ghost written = { λ s. Some s.bytes.items };

    ghost faults = { λ s. s.faults };

    fn put(&mut self, piece: &[u8]) -> Put
        ensures gives { PutGives result (Some (sink_bytes self.old)) (Some (sink_bytes self.new)) (sink_faults self.old) (sink_faults self.new) piece.now }
        ensures later { sink_faults self.old ≤ sink_faults self.new }
        // It fails only where this call is to fail, and is done only where it is not.
        ensures planned { result ≡ Put.Failed → (kept : ℕ) × (next_failure (put_plan_of self.old) ≡ Some kept) × (sink_bytes self.new ≡ sink_bytes self.old ++ take (min kept (length piece.now)) piece.now) }
        ensures done { result ≡ Put.Done → next_failure (put_plan_of self.old) ≡ None }
        ensures counted { result ≡ Put.Failed → sink_faults self.new ≡ min (sink_faults self.old + 1) (2 ^ 64 - 1) }
        ensures plan { put_plan_of self.new ≡ after_put (put_plan_of self.old) }
    {
        self.calls = self.calls.saturating_add(1);
        match kept_by(&self.failures, self.calls) {
            None => match self.bytes.extend_from_slice(piece) {
                Ok(()) => Put::Done,
                Err(_) => Put::NoMemory,
            },
            Some(kept) => {
                let kept = (kept as usize).min(piece.len());
                match self.bytes.extend_from_slice(&piece[..kept]) {
                    Ok(()) => {
                        self.faults = self.faults.saturating_add(1);
                        Put::Failed
                    }
                    Err(_) => Put::NoMemory,
                }
            }
        }
    }
}
