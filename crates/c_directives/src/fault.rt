// What directives leave where they aren't done. The line that tells of it is written elsewhere.
ghost use Rattle.std.specs.Prelude.{◌≡◌};
ghost use Rattle.c_directives.specs.declared.fault.LineFault.TheVariants.{Memory};

use sparse_model::{ErrorKind, NameId};
use std::alloc::{AllocError, AllocFailed};

/// Why a directive isn't done.
#[derive(Clone, Copy, Debug, PartialEq, Eq)]
pub enum LineFault {
    /// The unit ends with this error at the `#`. Its text may name a word.
    Refused(ErrorKind, Option<NameId>),
    Memory,
}

impl From<AllocError> for LineFault {
    ghost from_gives = { λ _ fault. fault ≡ Memory };

    fn from(_error: AllocError) -> LineFault {
        LineFault::Memory
    }
}

impl<T: Drop> From<AllocFailed<T>> for LineFault {
    ghost from_gives = { λ _ fault. fault ≡ Memory };

    fn from(_refused: AllocFailed<T>) -> LineFault {
        LineFault::Memory
    }
}
