// The files that can be loaded.
ghost use Rattle.std.specs.Prelude.{◌≡◌, ℕ, List, [], ◌∷◌, ◌++◌};
ghost use Rattle.std.specs.declared.option.Option.{Option};
ghost use Rattle.meaning_outside.specs.Faults.{Told};
ghost use Rattle.meaning_outside.specs.Files.{FileMap};
ghost use Rattle.meaning_outside.specs.Loads.{Loaded};
ghost use Rattle.sparse_outside.specs.Load.{Loads, loaded};

/// How a load ended.
#[derive(Clone, Copy, Debug, PartialEq, Eq)]
pub enum Load {
    /// The buffer holds the whole file.
    Whole,
    /// There is no such file.
    Missing,
    /// The file has more bytes than were asked for.
    TooLong,
    /// The outside failed, which says nothing of the file.
    Failed,
    /// The buffer could not grow.
    NoMemory,
}

/// Files by their paths, which are bytes.
pub trait Files {
    /// The files, where they are told.
    ghost holds: { Self → Option FileMap };

    /// What each load gave, in order.
    ghost loads: { Self → List Loaded };

    /// How many loads failed. It never falls, and stands still at the end of its type.
    ghost faults: { Self → ℕ };

    /// Loads a file of at most `max` bytes into the buffer, which stays empty unless it gets all of them.
    fn load(&mut self, path: &[u8], max: usize, into: &mut Vec<u8>) -> Load
        requires { into.old.items ≡ [] }
        ensures answer { Loads (holds self.old) path.now max result into.new.items }
        ensures trace { loads self.new ≡ loads self.old ++ loaded path.now max result into.new.items ∷ [] }
        ensures keeps { holds self.new ≡ holds self.old }
        ensures cause { Told (faults self.old) (faults self.new) (result ≡ Load.Failed) };
}
