// Why a file has no unit. The line that tells of it is written elsewhere.
ghost use Rattle.std.specs.Prelude.{◌≡◌};
ghost use Rattle.c_preproc.specs.declared.pre_fault.PreFault.TheVariants.{Memory};

use sparse_model::{ErrorKind, LimitKind, NameId, Place};
use std::alloc::{AllocError, AllocFailed};

/// Why a file has no preprocessed unit.
#[derive(Clone, Copy, Debug, PartialEq, Eq)]
pub enum PreFault {
    /// The first error, where it stands, the word that its text names, and the path of that place's file. Where
    /// its text names none, the word is the empty spelling.
    Error(ErrorKind, Place, NameId, NameId),
    /// A load failed.
    ReadFault,
    /// The first limit that is passed.
    Limit(LimitKind),
    Memory,
}

impl From<AllocError> for PreFault {
    ghost from_gives = { λ _ fault. fault ≡ Memory };

    fn from(_error: AllocError) -> PreFault {
        PreFault::Memory
    }
}

impl<T: Drop> From<AllocFailed<T>> for PreFault {
    ghost from_gives = { λ _ fault. fault ≡ Memory };

    fn from(_refused: AllocFailed<T>) -> PreFault {
        PreFault::Memory
    }
}
