// What loads gave and what puts took, for proofs alone: neither trace takes a byte when the program runs.
ghost use Rattle.std.specs.Prelude.{◌≡◌, ℕ, List, [], ◌∷◌, ◌++◌};
ghost use base.Fml.{ftrue};
ghost use Rattle.meaning_outside.specs.Loads.{Loaded};
ghost use Rattle.sparse_outside.specs.Trace.{loads_code};

use crate::files::Load;
use crate::sink::Put;
use std::marker::Model;

/// What the loads gave, in order.
#[derive(Drop)]
pub(crate) struct LoadTrace {
    pub ghost loads: { List Loaded } by { loads_code },
}

impl Model for LoadTrace {
    ghost also_owns = { λ _. ftrue };
}

/// A load that ended, with what the buffer holds then.
#[derive(Clone, Copy, Drop)]
pub(crate) struct EndedLoad<'a> {
    pub path: &'a [u8],
    pub max: usize,
    pub answer: Load,
    pub into: &'a [u8],
}

impl LoadTrace {
    ghost use Rattle.sparse_outside.specs.Load.{loaded};

    /// No load yet.
    pub(crate) fn new() -> LoadTrace
        ensures { result.loads ≡ [] }
    {
        LoadTrace {}
    }

    /// The same loads, and then this one.
    pub(crate) fn then(&self, _load: &EndedLoad<'_>) -> LoadTrace
        ensures { result.loads ≡ self.now.loads
            ++ loaded _load.now.path.now _load.now.max _load.now.answer _load.now.into.now ∷ [] }
    {
        LoadTrace {}
    }
}

/// The bytes that the puts said they took, in order.
#[derive(Drop)]
pub(crate) struct TakenTrace {
    pub ghost bytes: { List ℕ },
}

impl Model for TakenTrace {
    ghost also_owns = { λ _. ftrue };
}

/// A put that ended.
#[derive(Clone, Copy, Drop)]
pub(crate) struct EndedPut<'a> {
    pub piece: &'a [u8],
    pub answer: Put,
}

impl TakenTrace {
    ghost use Rattle.sparse_outside.specs.Put.{taken_of};

    /// No byte yet.
    pub(crate) fn new() -> TakenTrace
        ensures { result.bytes ≡ [] }
    {
        TakenTrace {}
    }

    /// The same bytes, and then those that this put says it took.
    pub(crate) fn then(&self, _put: &EndedPut<'_>) -> TakenTrace
        ensures { result.bytes ≡ self.now.bytes ++ taken_of _put.now.piece.now _put.now.answer }
    {
        TakenTrace {}
    }
}
