// Why a macro isn't defined. The line that tells of it is written elsewhere.
ghost use Rattle.std.specs.Prelude.{◌≡◌};
ghost use Rattle.c_macros.specs.declared.fault.DefineFault.TheVariants.{Memory};

use std::alloc::{AllocError, AllocFailed};
use thiserror::Error;

/// Why a macro isn't defined.
#[derive(Clone, Copy, Debug, PartialEq, Eq, Error)]
pub enum DefineFault {
    #[error("another macro of this name")]
    Redefined,
    #[error("out of memory")]
    Memory,
}

impl From<AllocError> for DefineFault {
    ghost from_gives = { λ _ fault. fault ≡ Memory };

    fn from(_error: AllocError) -> DefineFault {
        DefineFault::Memory
    }
}

impl<T: Drop> From<AllocFailed<T>> for DefineFault {
    ghost from_gives = { λ _ fault. fault ≡ Memory };

    fn from(_refused: AllocFailed<T>) -> DefineFault {
        DefineFault::Memory
    }
}
