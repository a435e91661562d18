//! A place for bytes.

ghost use Rattle.std.specs.Prelude.{◌≤◌, ℕ, List};
ghost use Rattle.std.specs.declared.option.Option.{Option};

/// How a put ended.
#[derive(Clone, Copy, Debug)]
pub enum Put {
    /// The whole piece was taken.
    Done,
    /// The sink failed, maybe in the middle of the piece.
    Failed,
    /// Memory was wanting; nothing was taken.
    NoMemory,
}

/// A place for bytes, which keeps what was put, piece behind piece.
pub trait Sink {
    /// The bytes that were put, where they are told.
    ghost written: { Self → Option (List ℕ) };

    /// How often the sink has failed, up to the greatest `u64`.
    ghost faults: { Self → ℕ };

    ghost use Rattle.vrt_io.specs.Puts.{PutGives};

    /// Puts a piece behind what was put before. After `Failed` a front of the piece was put.
    fn put(&mut self, piece: &[u8]) -> Put
        ensures gives { PutGives result (written self.old) (written self.new) (faults self.old) (faults self.new) piece.now }
        // The count of faults never falls.
        ensures later { faults self.old ≤ faults self.new };
}
