// The sinks that take what is written.
ghost use Rattle.std.specs.Prelude.{◌≡◌, ◌<◌, ◌++◌, ℕ, List, length};
ghost use Rattle.std.specs.declared.option.Option.{Option};
ghost use Rattle.meaning_outside.specs.Faults.{Told};
ghost use Rattle.sparse_outside.specs.Put.{Puts, taken_of};

/// How a put ended.
#[derive(Clone, Copy, Debug, PartialEq, Eq)]
pub enum Put {
    /// So many bytes of the piece were written, at least one.
    Took(usize),
    /// Nothing was written.
    Failed,
}

/// Something that bytes are written to.
pub trait Sink {
    /// The bytes that were written, where they are told.
    ghost written: { Self → Option (List ℕ) };

    /// The bytes that the puts said they took, in order.
    ghost taken: { Self → List ℕ };

    /// How many puts failed. It never falls, and stands still at the end of its type.
    ghost faults: { Self → ℕ };

    /// Writes a front of the piece.
    fn put(&mut self, piece: &[u8]) -> Put
        requires { 0 < length piece.now }
        ensures bytes { Puts (written self.old) (written self.new) piece.now result }
        ensures takes { taken self.new ≡ taken self.old ++ taken_of piece.now result }
        ensures cause { Told (faults self.old) (faults self.new) (result ≡ Put.Failed) };
}
